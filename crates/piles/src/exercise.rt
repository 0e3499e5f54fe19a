// Calls on any store, with each answer on a line.
use crate::calls::{Call, Calls};
use std::io;
use store::{Cell, Store, read_all};
use text::Hex;

// Calls the store as often as `turns` says, for cells up to `last`, prints its cells at the end where they are few, and gives it back.
pub fn exercise<S: Store + Drop>(
    rt: &HostRuntime,
    mut store: S,
    last: u16,
    turns: usize,
) -> io::Result<S> {
    let count = store.count();
    println!(rt; "count {count}")?;
    for call in Calls::new(last).take(turns) {
        print_answer(rt, &mut store, call)?;
    }
    if count < 100 {
        print_cells(rt, &store)?;
    }
    Ok(store)
}

fn print_answer<S: Store>(rt: &HostRuntime, store: &mut S, call: Call) -> io::Result<()> {
    match call {
        Call::Read { cell, len } => print_read(rt, store, cell, len),
        Call::Left { cell } => print_left(rt, store, cell),
        Call::Write { cell, byte, len } => print_write(rt, store, cell, byte, len),
    }
}

fn print_read<S: Store>(rt: &HostRuntime, store: &S, cell: u16, len: usize) -> io::Result<()> {
    let mut into = vec![in rt.alloc(); 0xa5u8; len]?;
    let answer = store.read(cell, into.as_mut_slice());
    let hex = Hex {
        bytes: into.as_slice(),
    };
    match answer {
        Ok(()) => println!(rt; "read {cell} into {len}: ok {hex}"),
        Err(refusal) => println!(rt; "read {cell} into {len}: {refusal} {hex}"),
    }
}

fn print_left<S: Store>(rt: &HostRuntime, store: &S, cell: u16) -> io::Result<()> {
    match store.left(cell) {
        Ok(left) => println!(rt; "left {cell}: ok {left}"),
        Err(refusal) => println!(rt; "left {cell}: {refusal} "),
    }
}

fn print_write<S: Store>(
    rt: &HostRuntime,
    store: &mut S,
    cell: u16,
    byte: u8,
    len: usize,
) -> io::Result<()> {
    let from = vec![in rt.alloc(); byte; len]?;
    match store.write(cell, from.as_slice()) {
        Ok(()) => println!(rt; "write {cell} from {len} of {byte}: ok"),
        Err(refusal) => println!(rt; "write {cell} from {len} of {byte}: {refusal} "),
    }
}

// All cells, through the call that reads any store.
fn print_cells<S: Store>(rt: &HostRuntime, store: &S) -> io::Result<()> {
    let mut cells = vec![in rt.alloc(); Cell::default(); usize::from(store.count())]?;
    if let Err(refusal) = read_all(store, cells.as_mut_slice()) {
        return println!(rt; "{refusal} ");
    }
    for (k, cell) in cells.iter().enumerate() {
        print_cell(rt, k, cell)?;
    }
    Ok(())
}

// In the words of the model in Python, which are no display of a cell.
fn print_cell(rt: &HostRuntime, k: usize, cell: &Cell) -> io::Result<()> {
    let hex = Hex { bytes: &cell.value };
    let left = cell.left;
    println!(rt; "cell {k} {hex} {left}")
}
