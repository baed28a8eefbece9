//! What the program reads and writes.
ghost use Rattle.std.specs.Prelude.{◌≡◌, ◌≤◌, ℕ, None, false, Option, Some, IfErr, IfOk, IfSome, OnErr, OnOk, option_map, is_err, true, is_some};
ghost use Rattle.zed_host.specs.Calls.{Call, Complaining, Printing, Reading, Writing, call};
ghost use Rattle.zed_host.specs.Counting.{Counts};
ghost use Rattle.zed_host.specs.HostContents.{HalfComplained, HalfPrinted, HalfWritten, HostContents, StillTells, file_in, with_complaint, with_file, with_printed};
ghost use Rattle.zed_host.specs.Faults.{is_failure, is_fault};

/// Why a file was not read.
#[derive(Clone, Copy, Debug, PartialEq, Eq)]
pub enum ReadError {
    /// A growth was refused.
    Memory,
    /// There is no file of this name.
    NoFile,
    /// The file could not be read, or the host can't tell whether there is one.
    File,
}

/// A file or a stream that could not be written.
#[derive(Clone, Copy, Debug, PartialEq, Eq)]
pub struct WriteError;

/// Whole files by name, `stdin` and `stdout` among them, and the standard streams.
pub trait Host {
    /// What it holds, or that this isn't known.
    ghost contents: { Self → Option HostContents };

    /// How many calls failed, including reads of files that aren't there.
    ghost failed: { Self → ℕ };

    /// How many calls failed by a fault of the device.
    ghost faults: { Self → ℕ };

    /// Whether a call leads from one state to the other. Only the calls below say so. So a
    /// statement of the calls that lead from a host to what it becomes says all that was asked of
    /// it.
    ghost called: { Self → Call → Self → Type 0 };

    /// The bytes of a file.
    fn read(&mut self, name: &str) -> Result<Vec<u8>, ReadError>
        ensures bytes { IfOk result (λ bytes.
            IfSome (contents self.old) (λ t. file_in t name.now ≡ Some bytes.items)) }
        ensures no_file { IfErr result (λ e. e ≡ ReadError.NoFile
            → IfSome (contents self.old) (λ t. file_in t name.now ≡ None)) }
        ensures memory_only_when { IfErr result (λ e. e ≡ ReadError.Memory
            → IfSome (contents self.old) (λ t. is_some (file_in t name.now) ≡ true)) }
        ensures kept { contents self.new ≡ contents self.old }
        ensures asked { called self.old (call (Reading name.now) (is_failure result)) self.new }
        ensures failures { Counts (is_failure result) (failed self.old) (failed self.new) }
        ensures faults { Counts (is_fault result) (faults self.old) (faults self.new) };

    /// Puts a file in place of an earlier one of its name. If that fails, a front of it may be
    /// there.
    fn write(&mut self, name: &str, bytes: &[u8]) -> Result<(), WriteError>
        ensures written { OnOk result
            (contents self.new ≡ option_map (with_file name.now bytes.now) (contents self.old)) }
        ensures half { OnErr result (IfSome (contents self.old)
            (λ t. StillTells (HalfWritten name.now bytes.now t) (contents self.new))) }
        ensures asked { called self.old (call (Writing name.now) (is_err result)) self.new }
        ensures failures { Counts (is_err result) (failed self.old) (failed self.new) }
        ensures faults { Counts (is_err result) (faults self.old) (faults self.new) };

    /// Writes to the standard output.
    fn print(&mut self, bytes: &[u8]) -> Result<(), WriteError>
        ensures printed { OnOk result
            (contents self.new ≡ option_map (with_printed bytes.now) (contents self.old)) }
        ensures half { OnErr result (IfSome (contents self.old)
            (λ t. StillTells (HalfPrinted bytes.now t) (contents self.new))) }
        ensures asked { called self.old (call Printing (is_err result)) self.new }
        ensures failures { Counts (is_err result) (failed self.old) (failed self.new) }
        ensures faults { Counts (is_err result) (faults self.old) (faults self.new) };

    /// Writes to the standard error.
    fn complain(&mut self, bytes: &[u8]) -> Result<(), WriteError>
        ensures complained { OnOk result
            (contents self.new ≡ option_map (with_complaint bytes.now) (contents self.old)) }
        ensures half { OnErr result (IfSome (contents self.old)
            (λ t. StillTells (HalfComplained bytes.now t) (contents self.new))) }
        ensures asked { called self.old (call (Complaining bytes.now) (is_err result)) self.new }
        ensures failures { Counts (is_err result) (failed self.old) (failed self.new) }
        ensures faults { Counts (is_err result) (faults self.old) (faults self.new) };

    /// How many calls failed, up to the greatest `u64`.
    fn failures(&self) -> u64
        ensures result { result ≡ failed self.now }
        ensures within { faults self.now ≤ failed self.now };

    /// Only calls that failed are counted.
    ghost counts_failures: { (old : Self) (call : Call) (new : Self)
        → called old call new → Counts call.failed (failed old) (failed new) };

    /// A call that didn't fail is no fault of the device.
    ghost counts_no_fault: { (old : Self) (call : Call) (new : Self)
        → called old call new → call.failed ≡ false → faults new ≡ faults old };
}
