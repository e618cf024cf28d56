//! Worked values that the check computes: they catch a number that is wrong both in a definition and in the code.

ghost use Rattle.std.specs.Prelude.{◌≡◌, true, false, Some, None};
ghost use Rattle.iol_journal.specs.BegunViews.{BegunView};
ghost use Rattle.iol_journal.specs.Examples.{standing_of, older_standing_of};
ghost use Rattle.iol_journal.specs.declared.history.History.{History};
ghost use Rattle.iol_journal.specs.Idle.TheVariants.{Older};
ghost use Rattle.iol_journal.specs.Written.{WrittenView};
ghost use Rattle.iol_flush.specs.Stages.{is_due, room_of};
ghost use Rattle.iol_flush.specs.declared.stage.FlushStage.TheVariants.{Resting, Publishing};

use iol_disk::SectorDisk;

/// A checkpoint is due if two of three slots are used, if one is paused, or if the layout is an older one.
pub fn a_checkpoint_is_due<D: SectorDisk>()
    ensures none_used { (disk : D) (history : History)
        → is_due (record { disk = disk; standing = standing_of 0 9; idle = Older; history = history; begun = None }) ≡ false }
    ensures one_used { (disk : D) (history : History)
        → is_due (record { disk = disk; standing = standing_of 1 9; idle = Older; history = history; begun = None }) ≡ false }
    ensures two_used { (disk : D) (history : History)
        → is_due (record { disk = disk; standing = standing_of 2 9; idle = Older; history = history; begun = None }) ≡ true }
    ensures paused { (disk : D) (history : History) (begun : BegunView)
        → is_due (record { disk = disk; standing = standing_of 0 9; idle = Older; history = history; begun = Some begun }) ≡ true }
    ensures older { (disk : D) (history : History)
        → is_due (record { disk = disk; standing = older_standing_of 0 9; idle = Older; history = history; begun = None }) ≡ true }
{}

/// The record octets that a batch may have: what the free slots of three hold, or one slot if none is free or a durable
/// batch is not yet published.
pub fn rooms<D: SectorDisk>()
    ensures two_free { (disk : D) (history : History)
        → room_of (Resting (record { disk = disk; standing = standing_of 1 9; idle = Older; history = history; begun = None })) ≡ 16362 }
    ensures none_free { (disk : D) (history : History)
        → room_of (Resting (record { disk = disk; standing = standing_of 3 9; idle = Older; history = history; begun = None })) ≡ 8170 }
    ensures publishing { (disk : D) (history : History) (written : WrittenView)
        → room_of (Publishing (record { disk = disk; standing = standing_of 1 9; idle = Older; history = history; begun = None }) written)
        ≡ 8170 }
{}
