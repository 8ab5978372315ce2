//! Sessions and edits over a small packed file; replies worked out by hand.

use cu_io::{MemorySink, MemorySource};
use cu_pack::PackedView;
use cu_samples::{BUILT, RUSH_HOUR, SCRIPTS, Star, forged, later, packed};
use cu_session::{ListRoom, Router, answer_edits, answer_script, session};
use std::alloc::Global;
use std::test::Fail;

/// What a session answers to a script over a packed file, and its status.
pub(crate) fn answer(alloc: Global, file: &[u8], script: &str) -> Result<(u8, Vec<u8>), Fail> {
    let bytes = Vec::from_slice(alloc, file)?;
    let _view = PackedView::open(alloc, &bytes)?;
    let mut source = MemorySource::of(Vec::from_slice(alloc, script.as_bytes())?, Vec::new(alloc));
    let mut sink = MemorySink::new(alloc, 131_072, Vec::new(alloc))?;
    let status = session(alloc, bytes, &mut source, &mut sink);
    Ok((status, Vec::from_slice(alloc, sink.bytes())?))
}

// The replies to a text of edits from a router.
fn replies(alloc: Global, router: &mut Router, text: &str) -> Result<Vec<u8>, Fail> {
    let mut sink = MemorySink::new(alloc, 4096, Vec::new(alloc))?;
    let _ended = answer_edits(alloc, router, text.as_bytes(), &mut sink);
    Ok(Vec::from_slice(alloc, sink.bytes())?)
}

// The same, and its file after them.
fn edited(alloc: Global, router: Router, text: &str) -> Result<(Vec<u8>, Vec<u8>), Fail> {
    let mut router = router;
    let said = replies(alloc, &mut router, text)?;
    Ok((said, router.into_file()))
}

#[test]
fn sessions_are_answered(rt: HostRuntime) -> Result<(), Fail> {
    for script in &SCRIPTS {
        let (status, said) = answer(rt.alloc(), script.file, script.lines)?;
        assert_eq!(rt; said.as_slice(), script.replies.as_bytes());
        assert_eq!(rt; status, 0);
    }
    let (status, said) = answer(rt.alloc(), &later(), "q,0,2,28740\n")?;
    assert_eq!(rt; said.as_slice(), b"arrive=29100 arcs=0 1\n".as_slice());
    assert_eq!(rt; status, 0);
    Ok(())
}

// However much memory may be taken for what is known of shortcuts, the replies are the same.
#[test]
fn replies_are_the_same_with_any_room(rt: HostRuntime) -> Result<(), Fail> {
    let alloc = rt.alloc();
    let rooms = [
        ListRoom::none(),
        ListRoom::of_mib(0),
        ListRoom::of_mib(1),
        ListRoom::of_mib(u64::MAX),
    ];
    for script in &SCRIPTS {
        for room in &rooms {
            let (status, said) = answer_within(alloc, script.file, script.lines, *room)?;
            assert_eq!(rt; said.as_slice(), script.replies.as_bytes());
            assert_eq!(rt; status, 0);
        }
    }
    Ok(())
}

// What a session answers to a script over a packed file, with so much room, and its status.
fn answer_within(
    alloc: Global,
    file: &[u8],
    script: &str,
    room: ListRoom,
) -> Result<(u8, Vec<u8>), Fail> {
    let bytes = Vec::from_slice(alloc, file)?;
    let _view = PackedView::open(alloc, &bytes)?;
    let mut source = MemorySource::of(Vec::from_slice(alloc, script.as_bytes())?, Vec::new(alloc));
    let mut sink = MemorySink::new(alloc, 131_072, Vec::new(alloc))?;
    let status = match answer_script(alloc, bytes, room, &mut source, &mut sink) {
        Ok(()) => 0,
        Err(stop) => stop.status(),
    };
    Ok((status, Vec::from_slice(alloc, sink.bytes())?))
}

// Days leave the functions that they learned to those behind them and to edits. Those that an edit moves are learned anew: the days
// behind it are those of a fresh process over the edited file.
#[test]
fn days_behind_an_edit_are_those_of_a_fresh_process(rt: HostRuntime) -> Result<(), Fail> {
    let alloc = rt.alloc();
    let days = "d,0,2\nd,0,1\nd,1,2\nd,2,0\nd,0,2\n";
    let edit = "s,0,0,travel,200\n";
    let lines = "d,0,2\nd,0,1\nd,1,2\ns,0,0,travel,200\nd,0,2\nd,0,1\nd,1,2\nd,2,0\nd,0,2\n";
    let (status, said) = answer(alloc, &packed(alloc, RUSH_HOUR)?, lines)?;
    let router = Router::new(alloc, packed(alloc, RUSH_HOUR)?, ListRoom::as_ever())?;
    let (done, after) = edited(alloc, router, edit)?;
    let (fresh_status, fresh) = answer(alloc, &after, days)?;
    assert_eq!(rt; done.as_slice(), b"done 2\n".as_slice());
    assert!(rt; said.ends_with(&fresh));
    assert!(rt; fresh.starts_with(b"day 0,travel,250\nday 0,travel,200\n"));
    assert_eq!(rt; (status, fresh_status), (0, 0));
    Ok(())
}

#[test]
fn edits_are_made(rt: HostRuntime) -> Result<(), Fail> {
    let alloc = rt.alloc();
    let router = Router::new(alloc, packed(alloc, RUSH_HOUR)?, ListRoom::as_ever())?;
    let text = "s,0,0,travel,200\nq,0,2,0\r\nd,0,2\nr,0,0\nt,0,0\nl,0,2,160\ns,0,0,travel,60";
    let (said, bytes) = edited(alloc, router, text)?;
    assert_eq!(rt;
        said.as_slice(),
        b"done 2\nrefused: line\nrefused: line\nrefused: line\nrefused: line\nrefused: line\ndone 2\n".as_slice()
    );
    assert_eq!(rt; bytes.as_slice(), BUILT.as_slice());
    Ok(())
}

#[test]
fn edits_are_the_same_where_edges_are_known(rt: HostRuntime) -> Result<(), Fail> {
    let alloc = rt.alloc();
    let text = "s,0,0,travel,200\na,2,0\n";
    let router = Router::built(alloc, packed(alloc, RUSH_HOUR)?, ListRoom::as_ever())?;
    let (said, known) = edited(alloc, router, text)?;
    assert_eq!(rt; said.as_slice(), b"done 2\ndone 1\n".as_slice());
    let router = Router::new(alloc, packed(alloc, RUSH_HOUR)?, ListRoom::as_ever())?;
    let (said, unknown) = edited(alloc, router, text)?;
    assert_eq!(rt; said.as_slice(), b"done 2\ndone 1\n".as_slice());
    assert_eq!(rt; known.as_slice(), unknown.as_slice());
    Ok(())
}

// Files of edits of several lines. Profiles are set twice; a road gets another profile before that is set, and behind it; roads
// are closed and opened; the last line undoes the first; some lines are refused.
const MANY: [&str; 6] = [
    "s,0,0,travel,200\na,2,0\ns,0,0,travel,60\n",
    "a,0,1\ns,1,0,travel,30\ns,0,0,travel,90\n",
    "a,1,0\na,1,2\ns,2,0,travel,10,3600,travel,20\na,1,1\n",
    "s,9,0,travel,1\na,0,2\ns,2,0,closed,0\nq,0,2,0\ns,2,0,travel,5\na,0,0\n",
    "s,2,0,closed,0\na,0,2\na,1,2\n",
    "q,0,2,0\na,3,0\n",
];

// The file after one line, and its reply behind the others.
fn after_line(
    alloc: Global,
    file: Vec<u8>,
    line: &str,
    said: &mut Vec<u8>,
) -> Result<Vec<u8>, Fail> {
    let _view = PackedView::open(alloc, &file)?;
    let (reply, after) = edited(alloc, Router::new(alloc, file, ListRoom::as_ever())?, line)?;
    said.extend_from_slice(&reply)?;
    Ok(after)
}

// The replies to each line as a file of its own, and the file after them.
fn in_turn(alloc: Global, text: &str) -> Result<(Vec<u8>, Vec<u8>), Fail> {
    let mut file = packed(alloc, RUSH_HOUR)?;
    let mut said = Vec::new(alloc);
    for line in text.lines() {
        file = after_line(alloc, file, line, &mut said)?;
    }
    Ok((said, file))
}

#[test]
fn lines_together_leave_what_they_leave_in_turn(rt: HostRuntime) -> Result<(), Fail> {
    let alloc = rt.alloc();
    for text in MANY {
        let (said, file) = edited(
            alloc,
            Router::new(alloc, packed(alloc, RUSH_HOUR)?, ListRoom::as_ever())?,
            text,
        )?;
        let (turns, last) = in_turn(alloc, text)?;
        assert!(rt; said.as_slice() == turns.as_slice(), "{text}");
        assert!(rt; file.as_slice() == last.as_slice(), "{text}");
    }
    Ok(())
}

// Changes by which the least bound of both lists of an edge, which stand from a place on, is this one.
fn push_bounds(changes: &mut Vec<(usize, u8)>, place: usize, bound: u64) -> Result<(), Fail> {
    for (index, byte) in bound.to_le_bytes().iter().enumerate() {
        let up = place.saturating_add(index);
        changes.push((up, *byte))?;
        changes.push((up.saturating_add(8), *byte))?;
    }
    Ok(())
}

// The packed file of a star of 29 leaves whose roads take a week, or a minute by the second profile. Each shortcut above the middle's
// own edges is forged to lead by the rank before its lower end, so that its way is twice as long as that of the one below: from
// the lower end 25 on it takes longer than is said in short.
fn far(alloc: Global) -> Result<Vec<u8>, Fail> {
    let star = Star::of(alloc, 29)?;
    let profiles = b"profile,from,kind,value\n0,0,travel,604800\n1,0,travel,60\n";
    let file = packed(alloc, star.tables(profiles))?;
    let length = file.len().saturating_sub(32);
    // 12 bytes for each of both lists of an edge, the last four of them the middle; and 8 for the least bound of each.
    let mut bounds = length.saturating_sub(435 * 16);
    let mut place = bounds.saturating_sub(435 * 24);
    let mut bound = 604_800u64;
    let mut changes = Vec::new(alloc);
    for low in 0..29u8 {
        for _high in low..29 {
            if low > 0 {
                changes.push((place.saturating_add(8), low - 1))?;
                changes.push((place.saturating_add(20), low - 1))?;
            }
            push_bounds(&mut changes, bounds, bound)?;
            place = place.saturating_add(24);
            bounds = bounds.saturating_add(16);
        }
        bound = bound.saturating_mul(2);
    }
    Ok(forged(alloc, &file, &changes, length)?)
}

// The road from the last leaf to the middle is given a minute: the middle's edge and the first leaves' are settled by packed runs, and
// from leaf 26 on, where a forged half takes too long for them, the others by plain functions. A day knows no walk that is too long.
#[test]
fn edges_settled_plainly_after_words(rt: HostRuntime) -> Result<(), Fail> {
    let alloc = rt.alloc();
    let lines = "q,29,28,0\nd,29,28\na,57,1\nq,29,28,0\nd,29,28\nq,28,29,0\n";
    let (status, said) = answer(alloc, &far(alloc)?, lines)?;
    let replies =
        b"damaged 434 down 0\nday 0,travel,162349763788800\ndone 29\narrive=604860 arcs=57 54\nday 0,travel,604860\narrive=1209600 arcs=55 56\n";
    assert_eq!(rt; said.as_slice(), replies.as_slice());
    assert_eq!(rt; status, 0);
    Ok(())
}
