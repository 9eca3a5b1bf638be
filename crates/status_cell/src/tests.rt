//! A test with two threads: counts never fall, each pair is seen whole, and the last pair is seen.

ghost use Rattle.std.specs.Prelude.{◌≡◌};
ghost use Rattle.status_cell.specs.Counts.{nothing};

use crate::{Status, Viewer, Writer, new_cell};
use std::process::Abort;
use std::sync::Wait;
use std::test::Fail;
use std::thread;

const PAIRS: u64 = 10_000;

const LAST: Status = Status {
    steps: PAIRS,
    output: 2 * PAIRS,
};

fn publish_all<R: Wait>(rt: &R, mut writer: Writer)
    requires { writer.last ≡ nothing }
{
    for i in 0..PAIRS {
        writer.publish(
            rt,
            Status {
                steps: i + 1,
                output: 2 * (i + 1),
            },
        );
    }
}

fn look_often<R: Wait + Abort>(rt: &R, mut viewer: Viewer) -> Viewer {
    let mut before = viewer.look(rt);
    for _ in 0..PAIRS {
        let now = viewer.look(rt);
        assert!(rt; before.steps <= now.steps && before.output <= now.output);
        assert!(rt; now.output / 2 == now.steps, "a pair is seen whole");
        before = now;
    }
    viewer
}

// That a look is not stale, as those after the writer's thread has ended, no clause says.
#[test]
fn counts_never_fall_and_the_last_are_seen(rt: HostRuntime) -> Result<(), Fail> {
    let (writer, viewer) = new_cell(rt.alloc())?;
    let looking = thread::spawn(&rt, move || look_often(&rt, viewer))?;
    let writing = thread::spawn(&rt, move || publish_all(&rt, writer))?;
    writing.join(&rt);
    let mut viewer = looking.join(&rt);
    assert!(rt; viewer.look(&rt) == LAST);

    let mut other = viewer.split()?;
    assert!(rt; viewer.look(&rt) == LAST);
    assert!(rt; other.look(&rt) == LAST);
    viewer.join(other);
    assert!(rt; viewer.look(&rt) == LAST);
    Ok(())
}
