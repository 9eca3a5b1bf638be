//! Watches: the bytes of each as they were, against those that a target shows.

ghost use Rattle.std.specs.Prelude.{◌≡◌, ℕ, ◌+◌, ◌^◌, ◌<◌, ◌≤◌, IfErr, IfOk, OnErr, OnOk, None, length};
ghost use Rattle.std.specs.List.{position_from};
ghost use Rattle.page_memory.specs.Memory.{Memory};
ghost use Rattle.debug_core.specs.Points.{any_changed, has_changed, is_hit, ArePoints, IsPoint};
ghost use Rattle.debug_core.specs.Limits.{KeepsRoom};
ghost use Rattle.debug_core.specs.Seen.{AreSeen, CannotSee, IsSeen, IsUnread};

use crate::point::{MOST_WATCHED, Point};
use crate::target::{Target, TargetFault};

/// The bytes of a watch, and nothing after them.
pub(crate) type Window = [Option<u8>; MOST_WATCHED as usize];

/// The window of a watch before anything was seen.
pub(crate) const NOTHING: Window = [None; MOST_WATCHED as usize];

/// The number of the first watch of which a byte has changed since it was seen. Where none has, each is seen as it is now.
pub(crate) fn look<T: Target>(
    target: &mut T,
    points: &[Option<Point>],
    seen: &mut [Window],
) -> Result<Option<u32>, TargetFault>
    requires points { ArePoints points.now }
    requires room { length points.now ≤ length seen.old }
    requires few { length points.now ≤ 32 }
    ensures hit { IfOk result (λ hit. (was : Memory) → AreSeen points.now seen.old was →
        hit ≡ position_from (is_hit was (T.shown target.old).memory) 0 points.now) }
    ensures seen { IfOk result (λ hit. hit ≡ None →
        AreSeen points.now seen.new (T.shown target.old).memory) }
    ensures unread { OnErr result ((was : Memory) → AreSeen points.now seen.old was →
        IsUnread T.shown T.limits points.now was (T.shown target.old)) }
    ensures room { length seen.new ≡ length seen.old }
    ensures shown { T.shown target.new ≡ T.shown target.old }
    ensures kept { KeepsRoom (T.limits target.old) (T.limits target.new) }
{
    'points: for number in 0..points.len() {
        if look_at(target, points[number], &mut seen[number])? {
            return Ok(Some(number as u32));
        }
    }
    Ok(None)
}

/// Whether a point is a watch of which a byte has changed since it was seen. It is then seen as it is now.
fn look_at<T: Target>(
    target: &mut T,
    point: Option<Point>,
    seen: &mut Window,
) -> Result<bool, TargetFault>
    requires point { IsPoint point }
    ensures hit { IfOk result (λ hit. (was : Memory) → IsSeen point seen.old was →
        hit ≡ is_hit was (T.shown target.old).memory point) }
    ensures seen { OnOk result (IsSeen point seen.new (T.shown target.old).memory) }
    ensures unread { IfErr result (CannotSee (T.limits target.old) point) }
    ensures shown { T.shown target.new ≡ T.shown target.old }
    ensures kept { KeepsRoom (T.limits target.old) (T.limits target.new) }
{
    let Some(Point::Watch { address, length }) = point else {
        return Ok(false);
    };
    let mut now = NOTHING;
    target.read(address, &mut now[..length as usize])?;
    let hit = any_changed(&seen[..length as usize], &now[..length as usize]);
    *seen = now;
    Ok(hit)
}

/// Whether one of some bytes was there, and is not what it was.
#[tactic(auto, using(crate::proofs::Watching::changed_stops, crate::proofs::Watching::changed_goes_on, crate::proofs::Watching::changed_ends))]
pub fn any_changed(before: &[Option<u8>], now: &[Option<u8>]) -> bool
    requires { length before.now ≡ length now.now }
    ensures { result ≡ any_changed before.now now.now }
{
    'bytes: for i in 0..before.len() {
        if has_changed(before[i], now[i]) {
            return true;
        }
    }
    false
}

/// Whether a byte was there, and is not what it was.
fn has_changed(was: Option<u8>, now: Option<u8>) -> bool
    ensures { result ≡ has_changed was now }
{
    match (was, now) {
        (None, _) => false,
        (Some(_), None) => true,
        (Some(was), Some(now)) => was != now,
    }
}
