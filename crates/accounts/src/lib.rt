// What the parts answered, written into a record: crates/parts/src/main.rt has the layout.
#![tactic(auto)]

use definition::{Instruction, Item, Order, Refusal, Unfetched, Units};

pub fn put_moved(record: &mut [u8], moved: Option<Units>) {
    if let Some(u) = moved {
        records::put_signed(record, 16, u.0);
        records::put(record, 20, 1);
    }
}

pub fn put_index(record: &mut [u8], index: Option<usize>) {
    if let Some(i) = index {
        records::put(record, 21, 1);
        records::put_word(record, 22, (i % 65536) as u16);
    }
}

pub fn put_fetched(record: &mut [u8], i: usize, fetched: Result<u16, Unfetched>) {
    if i > 65536 {
        return;
    }
    match fetched {
        Ok(word) => records::put_word(record, i + 1, word),
        Err(why) => records::put(record, i, u8::from(Refusal::from(why))),
    }
}

// Numbers, as the bytes of a record that second/ reads.
#[derive(Clone, Copy)]
struct Account {
    kind: u8,
    flag: u8,
    setting: u8,
    more: u8,
    x: i32,
    y: i32,
}

pub fn put_account(record: &mut [u8], i: usize, mode: u8, word: u16) {
    if i > 65536 {
        return;
    }
    if let Err(why) = words::first_refusal(mode, word) {
        records::put(record, i, u8::from(why));
        return;
    }
    let a = account_of(words::decode(mode, word));
    records::put(record, i + 1, a.kind);
    records::put(record, i + 2, a.flag);
    records::put(record, i + 3, a.setting);
    records::put(record, i + 4, a.more);
    records::put_signed(record, i + 5, a.x);
    records::put_signed(record, i + 9, a.y);
}

fn account_of(instruction: Instruction) -> Account {
    match instruction {
        Instruction::Does(order) => order_account(order),
        Instruction::Draws { lit, item } => item_account(u8::from(lit), item),
    }
}

fn order_account(order: Order) -> Account {
    match order {
        Order::SetMode(b) => setting(1, b.sets, b.value, b.mode),
        Order::Jump => setting(2, false, 0, 0),
        Order::NoOp => setting(3, false, 0, 0),
        Order::StatusA(b) => setting(4, b.loads, u8::from(b.latch), u8::from(b.stops)),
        Order::Increment(b) => setting(5, b.sets, b.increment, 0),
        Order::StatusC(b) => setting(6, b.channel == 0, u8::from(b.write), 0),
    }
}

// The flag and the value go into bytes of their own, as the record has them.
fn setting(kind: u8, sets: bool, v: u8, more: u8) -> Account {
    Account {
        kind,
        flag: u8::from(sets),
        setting: if sets { v } else { 0 },
        more,
        x: 0,
        y: 0,
    }
}

fn item_account(lit: u8, item: Item) -> Account {
    match item {
        Item::ShortVector { x, y } => moves(7, lit, x, y),
        Item::LongVector { x } => moves(8, lit, x, Units(0)),
        Item::AbsolutePoint { x } => moves(9, lit, x, Units(0)),
        Item::GraphX { x } => moves(10, lit, x, Units(0)),
        Item::GraphY { y } => moves(11, lit, Units(0), y),
        Item::RelativePoint { x, y } => moves(12, lit, x, y),
        Item::Characters { first, second } => {
            moves(13, lit, Units(i32::from(first)), Units(i32::from(second)))
        }
    }
}

fn moves(kind: u8, lit: u8, x: Units, y: Units) -> Account {
    Account {
        kind,
        flag: lit,
        setting: 0,
        more: 0,
        x: x.0,
        y: y.0,
    }
}
