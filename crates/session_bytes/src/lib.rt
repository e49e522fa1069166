// What stands where in a session's bytes behind its head, of which `links` knows. Nobody else counts them.

#![tactic(auto)]

ghost use Rattle.std.specs.Prelude.{◌≡◌, ◌+◌, ◌≤◌, ◌<◌, [], length, MatchOption};
ghost use Rattle.words.specs.Lists.{Exact};
ghost use Rattle.session_meaning.specs.Sessions.{started};
ghost use Rattle.session_meaning.specs.Bytes.{piece_start, piece_room, size, link_count, length_at, piece_at};
ghost use Rattle.session_meaning.specs.Bytes.{Unused, no_entry, link_bytes, bytes_of};
ghost use Rattle.session_meaning.specs.Numbers.{head_at, piece_end, Clear, ClearBehind};
ghost use Rattle.session_meaning.specs.Numbers.{Measured, Tidy, CanPut, Put};
ghost use Rattle.links.specs.Heads.{five_of};

use links::{HEAD, Link, blank, count, long, rest_blank};
use words::copy;

// Where pieces start, how many places a piece has, and how many bytes there are.
const PIECES: usize = HEAD;

const ROOM: usize = 512;

pub const SIZE: usize = 33218;

// A piece, as a part of the lent session.
pub fn piece(session: &[u8; SIZE], i: usize) -> &[u8]
    requires { (i < 64) × (length_at session.now i ≤ piece_room) }
    ensures { result.now ≡ piece_at session.now i }
{
    let start = PIECES + ROOM * i;
    &session[start..start + long(session, i)]
}

// The first byte of a piece, if it is not empty.
pub fn head(session: &[u8], i: usize) -> Option<u8>
    requires { (length session.now ≡ size) × (i < 64) }
    ensures { MatchOption result (head_at session.now i ≡ 256) (λ byte. head_at session.now i ≡ byte) }
{
    if long(session, i) == 0 {
        return None;
    }
    Some(session[PIECES + ROOM * i])
}

// Whether the places that a session does not use hold 0: of links and lengths, behind pieces, and of pieces.
pub fn unused(session: &[u8]) -> bool
    requires { (length session.now ≡ size) × Measured session.now }
    ensures { Exact (Unused session.now) result }
{
    rest_blank(session)
        && behind_pieces(session)
        && blank(session, PIECES + ROOM * count(session), SIZE)
}

// The places of the pieces behind their lengths.
fn behind_pieces(session: &[u8]) -> bool
    requires { (length session.now ≡ size) × Measured session.now }
    ensures { Exact (ClearBehind session.now (link_count session.now)) result }
{
    for i in 0..count(session) {
        if !behind_piece(session, i) {
            return false;
        }
    }
    true
}

fn behind_piece(session: &[u8], i: usize) -> bool
    requires { (length session.now ≡ size) × (i < 64) × (length_at session.now i ≤ piece_room) }
    ensures { Exact (Clear session.now (piece_end session.now i) (piece_start (i + 1))) result }
{
    let start = PIECES + ROOM * i + long(session, i);
    blank(session, start, PIECES + ROOM * (i + 1))
}

// All places to 0: no link is there.
pub fn clear(session: &mut [u8; SIZE])
    ensures { session.new ≡ bytes_of (started []) }
{
    *session = [0u8; SIZE];
}

// A link and a piece at their places, with 0 behind it where the piece before was longer.
pub fn put_entry(session: &mut [u8; SIZE], i: usize, link: Link, piece: &[u8])
    requires { CanPut session.old i piece.now }
    ensures { Put session.old i (five_of link) piece.now session.new }
{
    let old = long(session, i);
    let n = piece.len();
    let start = PIECES + ROOM * i;
    links::put(session, i, link, n);
    copy(session, start, piece);
    if n < old {
        words::clear(session, start + n, old - n);
    }
}

// No link and no piece at a place.
pub fn clear_entry(session: &mut [u8; SIZE], i: usize)
    requires { (i < 64) × Tidy session.old i }
    ensures { Put session.old i (link_bytes no_entry.link) [] session.new }
{
    let nothing = Link {
        level: 0,
        state: 0,
        marker: 0,
        state_below: 0,
        marker_below: 0,
    };
    put_entry(session, i, nothing, &[]);
}
