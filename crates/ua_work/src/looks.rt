//! Records of other workers, which a worker looks for.

ghost use Rattle.std.specs.Prelude.{◌≡◌, ◌<◌, [], length, None, IsFalse, MatchOption, MatchResult};
ghost use Rattle.ua_log.specs.Moves.{IsAlone};
ghost use Rattle.ua_work.specs.Serials.{told_by};
ghost use Rattle.ua_work.specs.inner.Looks.{LooksTell, HasLooked};
ghost use Rattle.ua_work.specs.inner.Workings.{IsAtWork, HasWorked, Stops};

use crate::harvests::End;
use crate::puts::{Job, take_in};
use crate::replicas::Replica;
use ua_log::{Board, Seat};
use ua_table::Origin;

/// How often a worker looks for a new record before it takes none to come.
pub(crate) const LOOKS: u32 = 1024;

/// Looks for the next record, so often at most.
fn look_often(board: &Board, seat: &mut Seat, looks: u32) -> Option<Origin>
    requires home { seat.old.home ≡ board.now }
    requires room { length seat.old.own.seen < board.now.plan.budget }
    ensures found { LooksTell board.now.plan seat.old result seat.new }
    ensures alone { IsAlone seat.old.made seat.old.own → result ≡ None }
{
    for _ in 0..looks {
        if let Some(o) = board.look(seat) {
            return Some(o);
        }
    }
    None
}

/// Looks for the next record, so often at most, and enters it. Answers whether there was one.
pub(crate) fn see_next(
    job: &Job,
    seat: &mut Seat,
    replica: &mut Replica,
    looks: u32,
) -> Result<bool, End>
    requires work { IsAtWork job.now replica.old seat.old }
    ensures worked { HasWorked seat.old replica.old seat.new replica.new }
    ensures done { MatchResult result (λ found. IsAtWork job.now replica.new seat.new × HasLooked job.now.budget seat.old seat.new found) (Stops job.now.goal.now replica.new seat.new) }
    ensures lone { IsAlone seat.old.made seat.old.own → MatchResult result (λ found. IsFalse found) (λ end. (told_by end ≡ []) × (seat.new ≡ seat.old)) }
{
    if Board::seen(seat) >= job.budget {
        return Ok(false);
    }
    if replica.reserve().is_err() {
        return Err(End::OutOfMemory);
    }
    let Some(o) = look_often(job.board, seat, looks) else {
        return Ok(false);
    };
    if take_in(job.goal, replica, &o) {
        return Err(End::Reached);
    }
    Ok(true)
}

/// Enters the records that come, until so many looks find none. A lone worker, for which none come, does not look.
pub(crate) fn catch_up(job: &Job, seat: &mut Seat, replica: &mut Replica, looks: u32) -> Option<End>
    requires work { IsAtWork job.now replica.old seat.old }
    ensures worked { HasWorked seat.old replica.old seat.new replica.new }
    ensures done { MatchOption result (IsAtWork job.now replica.new seat.new) (Stops job.now.goal.now replica.new seat.new) }
    ensures lone { IsAlone seat.old.made seat.old.own → MatchOption result (seat.new ≡ seat.old) (λ end. ⊥) }
{
    if !Board::is_shared(seat) {
        return None;
    }
    for _ in 0..job.budget {
        match see_next(job, seat, replica, looks) {
            Ok(true) => {}
            Ok(false) => return None,
            Err(end) => return Some(end),
        }
    }
    None
}
