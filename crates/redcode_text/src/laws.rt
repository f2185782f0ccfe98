//! Laws of sources and of expressions. The functions do nothing; their contracts are the laws.
ghost use Rattle.redcode_text.specs.Laws.{LinesBeforeRedcodeAreIgnored, LinesAfterEndAreIgnored, ZeroIterationBodiesAreIgnored, MisshapenAtFirst, ShapesAreTrees, TreesHaveShapes};

/// Lines before the first `;redcode` have no effect.
pub fn lines_before_redcode_are_ignored()
    ensures { LinesBeforeRedcodeAreIgnored }
{}

/// Lines after END have no effect, unless one of them begins with `;redcode`.
///
/// This includes a FOR or ROF without its counterpart, and bytes that form no valid line.
pub fn lines_after_end_are_ignored()
    ensures { LinesAfterEndAreIgnored }
{}

/// The body of a loop with no iterations has no effect: it can be replaced by another body between the same FOR and ROF.
///
/// The law is about trees, in which each FOR of a body has its ROF. A FOR or ROF without its counterpart would change
/// which lines are the body.
pub fn zero_iteration_bodies_are_ignored()
    ensures { ZeroIterationBodiesAreIgnored }
{}

/// Tokens with a valid shape are the spelling of their tree.
///
/// Nothing is missing in the tree, its operators are arranged by precedence, and its unary operators and parentheses are
/// within their limits.
pub fn shapes_are_trees()
    ensures { ShapesAreTrees }
{}

/// If a tree is arranged by precedence and within the limits, its spelling has a valid shape, whose tree is this tree.
pub fn trees_have_shapes()
    ensures { TreesHaveShapes }
{}

/// The error of a shape belongs to the first token after which no expression is possible.
///
/// The error is `Depth` for a unary operator or an open parenthesis if an operand is possible in its place, and
/// `Syntax` for any other token. If no token is misplaced, the tokens end too early, which is `Syntax`.
pub fn misshapen_at_first()
    ensures { MisshapenAtFirst }
{}
