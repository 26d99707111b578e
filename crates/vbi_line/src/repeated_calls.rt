//! Calls of a counted reader or writer, made again while they are interrupted.

ghost use Rattle.std.specs.Prelude.{◌≡◌, ◌+◌, ◌^◌, ◌<◌, ◌≤◌, length, IfOk};
ghost use Rattle.std.specs.Io.KnownBytes.{ReadConsumes, WriteAppends};

use crate::counted::{Counted, Fail};
use std::io::{Read, Write};

/// How many interruptions in a row are passed over, each by another call. The next one is a fault.
// There is a limit so that a run ends with any device, also with one that answers nothing but interruptions.
pub const RETRIES: u32 = 16;

impl<R: Read> Counted<'_, R> {
    ghost use Rattle.vbi_line.specs.Counted.{tries, device_of, failures_of, IsSameDevice, IsCounted, IsAsked};

    /// Calls the reader once. After `Ok(n)` the first n bytes of `buf` are the reader's next n bytes, and n is 0 only
    /// if the reader is at its end or `buf` is empty. After an error no byte was taken, and the failure is counted.
    pub fn read_once(&mut self, buf: &mut [u8]) -> Result<usize, Fail>
        requires { (failures_of self.old).all < 2 ^ 63 }
        ensures fits { IfOk result (λ n. n ≤ length buf.new) }
        ensures bytes { ReadConsumes (R.remaining (device_of self.old))
            (R.remaining (device_of self.new)) result buf.new }
        ensures same_device { IsSameDevice self.old self.new }
        ensures counted { IsCounted result (failures_of self.old) (failures_of self.new) }
    {
        let answer = self.ask_to_read(buf);
        self.count(answer, false)
    }

    /// Calls the reader until it isn't interrupted, seventeen times at most. The answer is that of the last call.
    pub fn read_some(&mut self, buf: &mut [u8]) -> Result<usize, Fail>
        requires { (failures_of self.old).all + tries ≤ 2 ^ 63 }
        ensures fits { IfOk result (λ n. n ≤ length buf.new) }
        ensures bytes { ReadConsumes (R.remaining (device_of self.old))
            (R.remaining (device_of self.new)) result buf.new }
        ensures same_device { IsSameDevice self.old self.new }
        ensures asked { IsAsked result self.old self.new }
    {
        for _ in 0..RETRIES {
            match self.read_once(buf) {
                Err(Fail::Interrupted) => {}
                answer => return answer,
            }
        }
        self.read_once(buf)
    }
}

impl<W: Write> Counted<'_, W> {
    ghost use Rattle.vbi_line.specs.Counted.{tries, device_of, failures_of, IsSameDevice, IsCounted, IsAsked};

    /// Calls the writer once. After `Ok(n)` the first n of `bytes` were written, at least one unless `bytes` is empty.
    /// After an error none was written, and the failure is counted; so is a writer that takes none of some bytes.
    pub fn write_once(&mut self, bytes: &[u8]) -> Result<usize, Fail>
        requires { (failures_of self.old).all < 2 ^ 63 }
        ensures fits { IfOk result (λ n. n ≤ length bytes.now) }
        ensures some { IfOk result (λ n. 0 < length bytes.now → 0 < n) }
        ensures bytes { WriteAppends (W.contents (device_of self.old))
            (W.contents (device_of self.new)) result bytes.now }
        ensures same_device { IsSameDevice self.old self.new }
        ensures counted { IsCounted result (failures_of self.old) (failures_of self.new) }
    {
        let answer = self.ask_to_write(bytes);
        self.count(answer, !bytes.is_empty())
    }

    /// Calls the writer until it isn't interrupted, seventeen times at most. The answer is that of the last call.
    // Inlined, since `draw` takes a tenth fewer instructions without a call for each write.
    #[inline(always)]
    pub fn write_some(&mut self, bytes: &[u8]) -> Result<usize, Fail>
        requires { (failures_of self.old).all + tries ≤ 2 ^ 63 }
        ensures fits { IfOk result (λ n. n ≤ length bytes.now) }
        ensures some { IfOk result (λ n. 0 < length bytes.now → 0 < n) }
        ensures bytes { WriteAppends (W.contents (device_of self.old))
            (W.contents (device_of self.new)) result bytes.now }
        ensures same_device { IsSameDevice self.old self.new }
        ensures asked { IsAsked result self.old self.new }
    {
        for _ in 0..RETRIES {
            match self.write_once(bytes) {
                Err(Fail::Interrupted) => {}
                answer => return answer,
            }
        }
        self.write_once(bytes)
    }
}
