// What a step leaves: the session written over the one before, from the drafts.
ghost use Rattle.std.specs.Prelude.{◌≡◌, ℕ, ◌≤◌, ◌<◌};
ghost use Rattle.session_meaning.specs.Bytes.{Kept, bytes_of};
ghost use Rattle.session_meaning.specs.Numbers.{Tidy};
ghost use Rattle.step_drafts.specs.Drafts.{drafts_of};
ghost use Rattle.step.specs.Writing.{Fitting, drafted, PutFrom, Written};

use session_bytes::SIZE;
use step_drafts::WORK;

// The drafts become the session. Places that only the one before used are set to 0, and no others are: most places of
// a session are not used.
pub fn write(session: &mut [u8; SIZE], work: &[u8; WORK], depth: usize)
    requires { Kept session.old × Fitting work.now × (depth < 256) }
    ensures { session.new ≡ bytes_of (drafted depth work.now) }
{
    let n = links::count(work);
    let end = n.max(links::count(session));
    write_places(session, work, end);
    links::set_head(session, depth, n);
}

// The places below `end`, one after the other.
fn write_places(session: &mut [u8; SIZE], work: &[u8; WORK], end: usize)
    requires { (end ≤ 64) × ((i : ℕ) → i < end → Tidy session.old i) × Fitting work.now }
    ensures { Written (drafts_of work.now) session.old end session.new }
{
    for p in 0..end {
        write_place(session, work, p);
    }
}

// One place: the draft that comes there, or nothing.
fn write_place(session: &mut [u8; SIZE], work: &[u8; WORK], p: usize)
    requires { (p < 64) × Tidy session.old p × Fitting work.now }
    ensures { PutFrom (drafts_of work.now) session.old p session.new }
{
    if links::count(work) <= p {
        session_bytes::clear_entry(session, p);
        return;
    }
    session_bytes::put_entry(
        session,
        p,
        links::read(work, p),
        step_drafts::piece(work, p),
    );
}
