//! Laws of the program. The functions do nothing; their contracts are the laws.
//!
//! The first three are about runs whose files have known contents, such as files in memory: no contract says what the
//! files of the system contain. Runs that request the help are left out, since no definition has the text of the help.
ghost use Rattle.mars_app.specs.Laws.{EqualRunsWriteTheSame, ErrorsRecur, FailedReadsArePauses, FailedRunsWriteABeginning, FailedWritesArePauses, OnlyTheDebuggerReads};

/// Two runs without an error have written the same bytes, if they were given the same arguments, files and input.
pub fn equal_runs_write_the_same()
    ensures { EqualRunsWriteTheSame }
{}

/// A run that ends with an error has written a beginning of what it writes without an error.
pub fn failed_runs_write_a_beginning()
    ensures { FailedRunsWriteABeginning }
{}

/// An error of the arguments or the files recurs: no run with the same arguments and files succeeds. Other errors come from the
/// system: no memory, or a read or a write that failed.
pub fn errors_recur()
    ensures { ErrorsRecur }
{}

/// A run that does not debug reads nothing of its input, with or without an error.
pub fn only_the_debugger_reads()
    ensures { OnlyTheDebuggerReads }
{}

/// A failed read of the debugger is only a pause: if the session then continues with the unfinished line and the rest
/// of the input, the rest of the replies is written.
pub fn failed_reads_are_pauses()
    ensures { FailedReadsArePauses }
{}

/// A failed write of the debugger is only a pause, too, except that the end of the reply that was cut off is lost.
pub fn failed_writes_are_pauses()
    ensures { FailedWritesArePauses }
{}
