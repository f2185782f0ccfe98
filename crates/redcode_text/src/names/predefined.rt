//! The predefined names, such as CORESIZE, and their values.
ghost use Rattle.std.specs.Prelude.{◌≡◌, map};
ghost use Rattle.redcode_text.specs.Views.{predefined_of};
ghost use Rattle.redcode_text.specs.Lines.{predefined_value, with_current_line};

/// The values of the predefined names, except for CURLINE.
#[derive(Clone, Copy, Debug)]
pub struct PredefinedNames {
    /// CORESIZE, the number of cells.
    pub core_size: i64,
    /// MAXPROCESSES, the maximum number of processes of a warrior.
    pub max_processes: i64,
    /// MAXCYCLES, the maximum number of cycles of a battle.
    pub max_cycles: i64,
    /// MAXLENGTH, the maximum length of a warrior.
    pub max_length: i64,
    /// MINDISTANCE, the minimum distance between warriors.
    pub min_distance: i64,
    /// ROUNDS, the number of rounds.
    pub rounds: i64,
    /// WARRIORS, the number of warriors.
    pub warriors: i64,
    /// VERSION, a version number.
    pub version: i64,
}

/// A name and its value.
#[derive(Clone, Copy)]
struct NamedValue<'a> {
    name: &'a str,
    value: i64,
}

/// Returns the value of `name` among `values`, if it is there.
fn value_among(values: &[NamedValue<'_>], name: &[u8]) -> Option<i64>
    ensures { result ≡ predefined_value (map (λ v. (v.name.now, v.value)) values.now) name.now }
{
    let [first, rest @ ..] = values else {
        return None;
    };
    if first.name.as_bytes() == name {
        return Some(first.value);
    }
    value_among(rest, name)
}

fn named(name: &str, value: i64) -> NamedValue<'_>
    ensures name { result.name.now ≡ name.now }
    ensures value { result.value ≡ value }
{
    NamedValue { name, value }
}

impl PredefinedNames {
    /// Returns the predefined names with their values, except for CURLINE.
    fn table(&self) -> [NamedValue<'static>; 8]
        ensures { map (λ v. (v.name.now, v.value)) result ≡ predefined_of self.now }
    {
        [
            named("CORESIZE", self.core_size),
            named("MAXPROCESSES", self.max_processes),
            named("MAXCYCLES", self.max_cycles),
            named("MAXLENGTH", self.max_length),
            named("MINDISTANCE", self.min_distance),
            named("ROUNDS", self.rounds),
            named("WARRIORS", self.warriors),
            named("VERSION", self.version),
        ]
    }

    /// Returns the value of `name`, if it is a predefined name other than CURLINE.
    fn value(&self, name: &[u8]) -> Option<i64>
        ensures { result ≡ predefined_value (predefined_of self.now) name.now }
    {
        value_among(&self.table(), name)
    }

    /// Returns the value of `name`, if it is a predefined name. `current_line` is the value of CURLINE.
    pub fn value_at(&self, current_line: u32, name: &[u8]) -> Option<i64>
        ensures { result ≡ predefined_value (with_current_line (predefined_of self.now) current_line) name.now }
    {
        if b"CURLINE".as_slice() == name {
            return Some(i64::from(current_line));
        }
        self.value(name)
    }
}
