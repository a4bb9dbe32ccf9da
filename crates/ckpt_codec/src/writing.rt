// From a record to bytes.
ghost use Rattle.std.specs.Prelude.{◌≡◌, ◌++◌, ◌<◌, OnOk, IfOk, length};
ghost use Rattle.ckpt_codec.specs.RecordText.{IsRecord, IsTextIn};
ghost use Rattle.ckpt_codec.specs.declared.version.TheConstants.{VERSION};
ghost use Rattle.ckpt_codec.specs.Spelling.{head_text, front_text, spelling, IsShortFront, IsShortRecord, RecordHasItems};

use crate::lengths::spelled_length;
use crate::numbers::{put_highest, put_u8, put_u64};
use crate::putting::{put_decisions, put_image, put_tentative};
use crate::version::VERSION;
use record::Record;
use std::alloc::{AllocError, Global};

// Version, node, epoch and the highest numbers.
fn put_head(out: &mut Vec<u8>, version: u8, kept: &Record) -> Result<(), AllocError>
    requires { length kept.now.highest < 256 }
    ensures { OnOk result (out.new.items ≡ out.old.items ++ head_text version kept.now) }
{
    put_u8(out, version)?;
    put_u8(out, kept.node)?;
    put_u64(out, kept.epoch)?;
    put_u8(out, kept.highest.len() as u8)?;
    put_highest(out, kept.highest.as_slice())
}

// What a record and its header have both: the head and the decisions.
pub(crate) fn put_front(out: &mut Vec<u8>, version: u8, kept: &Record) -> Result<(), AllocError>
    requires { IsShortFront kept.now }
    ensures { OnOk result (out.new.items ≡ out.old.items ++ front_text version kept.now) }
{
    put_head(out, version, kept)?;
    put_decisions(out, kept.decisions.as_slice())
}

fn put_record(out: &mut Vec<u8>, kept: &Record) -> Result<(), AllocError>
    requires { IsShortRecord kept.now }
    ensures put { OnOk result (out.new.items ≡ out.old.items ++ spelling VERSION kept.now) }
    ensures fit { OnOk result (RecordHasItems kept.now) }
{
    put_front(out, VERSION, kept)?;
    put_image(out, &kept.permanent)?;
    put_tentative(out, &kept.tentative)
}

/// The spelling of a record in the version in which records are written. Refuses for want of memory alone.
pub fn write_record(alloc: Global, kept: &Record) -> Result<Vec<u8>, AllocError>
    requires { IsRecord kept.now }
    ensures { IfOk result (λ bytes. IsTextIn VERSION kept.now bytes.items) }
{
    let mut out = Vec::with_capacity(alloc, spelled_length(kept))?;
    put_record(&mut out, kept)?;
    Ok(out)
}
