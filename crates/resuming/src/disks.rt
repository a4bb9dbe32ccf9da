// The records of nodes on their disks.
ghost use Rattle.std.specs.Prelude.{◌≡◌, [], None, IfErr, IfOk, length, map};
ghost use Rattle.ckpt_codec.specs.Lengths.{image_length};
ghost use Rattle.ckpt_codec.specs.RecordText.{IsRecord};
ghost use Rattle.ckpt_codec.specs.SizeLaws.{IsRecordWithin};
ghost use Rattle.ckpt_codec.specs.declared.lengths.TheConstants.{MAX_RETAINED_ITEMS};
ghost use Rattle.kahn_net.specs.Nodes.{node_count};
ghost use Rattle.rerun.specs.Whole.{net_in, table_in};
ghost use Rattle.resuming.specs.Disks.{AreWritten, IsResumingRefusal, IsWritten};
ghost use Rattle.world.specs.OpeningWorld.{IsNotOpened};

use crate::copying::record_of;
use crate::shares::keeps_shares;
use ckpt_codec::VERSION;
use ckpt_store::StoreFault;
use record::Record;
use rerun::Rerun;
use sector_disk::Disk;
use std::alloc::Global;
use world::{NotOpened, open_store};

// A disk that is formatted with this record.
fn write_record<D: Disk>(alloc: Global, disk: D, kept: &Record) -> Result<D, NotOpened<D>>
    requires written { IsRecord kept.now }
    requires settled { kept.now.decisions ≡ [] }
    requires bounded { IsRecordWithin MAX_RETAINED_ITEMS kept.now }
    requires alone { kept.now.tentative ≡ None }
    ensures written { IfOk result (λ back. IsWritten D.sector_count D.content D.may_leave D.armed D.failure_count
        kept.now disk back) }
    ensures refused { IfErr result (λ refused. IsNotOpened D.sector_count D.failure_count
        (image_length kept.now.permanent) disk refused.disk refused.fault) }
{
    match open_store(alloc, disk, kept, VERSION) {
        Ok(store) => Ok(store.close().close()),
        Err(refused) => Err(refused),
    }
}

/// Formats each disk with the record of the node of its place.
pub(crate) fn write_records<D: Disk>(
    alloc: Global,
    rerun: &Rerun,
    disks: Vec<D>,
) -> Result<Vec<D>, StoreFault>
    requires { length disks.items ≡ node_count (net_in rerun.now) }
    ensures written { IfOk result (λ written. AreWritten D.sector_count D.content D.may_leave D.armed D.failure_count
        (net_in rerun.now) (table_in rerun.now) 0 disks.items written.items) }
    ensures cause { IfErr result (IsResumingRefusal (net_in rerun.now) (table_in rerun.now)
        (map (λ disk. D.sector_count disk) disks.items)) }
{
    let nodes = disks.len();
    let mut written = Vec::with_capacity(alloc, nodes)?;
    for disk in disks {
        let kept = record_of(alloc, rerun, written.len() as u8, nodes)?;
        if !keeps_shares(&kept.permanent) {
            return Err(StoreFault::TooLarge);
        }
        match write_record(alloc, disk, &kept) {
            Ok(disk) => written.push(disk)?,
            Err(refused) => return Err(refused.fault),
        }
    }
    Ok(written)
}
