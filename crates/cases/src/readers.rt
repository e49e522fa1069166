// What the readers of a rule file say of G.
ghost use Rattle.std.specs.Prelude.{◌<◌};
ghost use Rattle.table.specs.Good.{first_edition, GoodFile};
ghost use Rattle.table.specs.File.{row_count};

use crate::lines::say;
use crate::tables::g;
use std::io;
use table_check::check;

pub(crate) fn all(rt: &impl Print) -> io::Result<()> {
    readings(rt, &g())
}

// What the readers say of a file, if it is good.
fn readings(rt: &impl Print, file: &[u8]) -> io::Result<()> {
    if check(file).is_ok() {
        show(rt, file)?;
    }
    Ok(())
}

fn show(rt: &impl Print, file: &[u8]) -> io::Result<()>
    requires { GoodFile first_edition file.now }
{
    show_head(rt, file)?;
    show_body(rt, file)?;
    show_rows(rt, file)
}

fn show_head(rt: &impl Print, file: &[u8]) -> io::Result<()>
    requires { GoodFile first_edition file.now }
{
    say(rt, b"states", table::states(file) as u64)?;
    say(rt, b"markers", table::markers(file) as u64)?;
    say(rt, b"depth cap", table::depth_cap(file) as u64)?;
    say(rt, b"waiting cap", table::waiting_cap(file) as u64)
}

fn show_body(rt: &impl Print, file: &[u8]) -> io::Result<()>
    requires { GoodFile first_edition file.now }
{
    let starting = table::starting_set(file);
    say(rt, b"starting states", sets::size(starting) as u64)?;
    say(rt, b"final set", table::final_set(file))?;
    say(rt, b"rows", table::row_count(file) as u64)?;
    say(rt, b"first row of 10", table::first_row(file, 10, 0) as u64)?;
    say(rt, b"first row of 13", table::first_row(file, 13, 0) as u64)?;
    say(
        rt,
        b"first row of 1 from 2",
        table::first_row(file, 1, 2) as u64,
    )
}

// The rows of a file, if it is good.
pub(crate) fn list(rt: &impl Print, file: &[u8]) -> io::Result<()> {
    if check(file).is_ok() {
        show_rows(rt, file)?;
    }
    Ok(())
}

fn show_rows(rt: &impl Print, file: &[u8]) -> io::Result<()>
    requires { GoodFile first_edition file.now }
{
    for i in 0..table::row_count(file) {
        row(rt, file, i)?;
    }
    Ok(())
}

fn row(rt: &impl Print, file: &[u8], i: usize) -> io::Result<()>
    requires { (GoodFile first_edition file.now) × (i < row_count file.now) }
{
    let symbol = table::row_symbol(file, i);
    let from = table::row_from(file, i);
    let to = table::row_to(file, i);
    let marker = table::row_marker(file, i);
    print!(rt; "{symbol} {from} {to} {marker} ")?;
    rt.write_all(table::row_word(file, i))?;
    rt.write_all(b"\n")
}
