//! Lists of parts: the list without one part, and the sum of the parts.
ghost use Rattle.std.specs.Prelude.{◌≡◌, ◌<◌, ◌^◌, IfOk};
ghost use Rattle.sym_model.specs.Partition.{size};
ghost use Rattle.sym_model.specs.RaisedPart.{without_one};

use std::alloc::{AllocError, Global};

/// The parts without the first one that equals `part`.
pub(crate) fn without_part(alloc: Global, parts: &[u16], part: u16) -> Result<Vec<u16>, AllocError>
    ensures { IfOk result (λ rest. rest.items ≡ without_one part parts.now) }
{
    let mut rest = Vec::new(alloc);
    let mut found = false;
    for p in parts {
        if !found && *p == part {
            found = true;
        } else {
            rest.push(*p)?;
        }
    }
    Ok(rest)
}

/// The sum of the parts.
pub(crate) fn size_of(parts: &[u16]) -> u16
    requires { size parts.now < 2 ^ 16 }
    ensures { result ≡ size parts.now }
{
    let mut sum = 0;
    for p in parts {
        sum += *p;
    }
    sum
}
