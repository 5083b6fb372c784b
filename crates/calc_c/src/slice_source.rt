//! A source of bytes (`Source`) that reads the bytes of the caller's input.
ghost use Rattle.std.specs.Prelude.{◌≡◌, ◌<◌, Some, length, min, IfOk, OnErr};
ghost use Rattle.calc_base.specs.Fault.{CountsFaults};
ghost use Rattle.calc_base.specs.Source.{Takes, Spends};
ghost use Rattle.calc_c.specs.Calls.{slice_seen};

use calc_base::{Source, SourceFault};

/// A source over borrowed bytes. It allocates no memory, and none of its calls fails.
#[derive(Drop)]
pub(crate) struct SliceSource<'a> {
    pub(crate) rest: &'a [u8],
}

impl Source for SliceSource<'_> {
    ghost seen = { λ s. slice_seen s.rest.now };

    fn take(&mut self, buf: &mut [u8]) -> Result<usize, SourceFault>
        requires { 0 < length buf.old }

        // The clauses that the trait `Source` asks for.
        ensures ok { IfOk result (Takes (Some self.old.rest.now) (Some self.new.rest.now) buf.new) }
        ensures err { OnErr result (Some self.new.rest.now ≡ Some self.old.rest.now) }
        ensures spends { Spends (length self.old.rest.now) (length self.new.rest.now) result }
        ensures counts { CountsFaults 0 0 result }

        // A clause of this source only: a call gives all bytes that are left, or those that fit
        // into `buf`.
        ensures given { IfOk result (λ count. count
            ≡ min (length buf.new) (length self.old.rest.now)) }
    {
        let count = buf.len().min(self.rest.len());
        let (front, rest) = self.rest.split_at(count);
        buf[..count].copy_from_slice(front);
        self.rest = rest;
        Ok(count)
    }
}
