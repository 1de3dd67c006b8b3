// Document 01's edges, both sides of each, through the public calls: on each line what came out and what the paper says, and at the
// end how many lines there are and how many differ. What is expected is written down, and computed nowhere.
#![tactic(auto)]

use definition::{Machine, Pixel, Pixels, Ran, Refusal, Units};
use table::Table;

// ---- files, machines, runs, pixels
// A file of one segment, of two words.
fn file_of(first: u16, second: u16) -> [u16; 6] {
    [1, 1, 4, 2, first, second]
}

// A fresh machine but for its mode, a number as the machine has it, and its position in units.
fn machine_at(mode: u8, x: i32, y: i32) -> Machine {
    let x = Units(x);
    let y = Units(y);
    let mut m = display::fresh();
    m.mode = mode;
    m.x = x;
    m.y = y;
    m
}

// A file of two words, on an image that nothing looks at.
fn run_words(first: u16, second: u16, m: Machine, budget: u32) -> Ran {
    let mut image = [0u8; 65536];
    display::run(&file_of(first, second), m, &mut image, budget, b"")
}

// One short vector, from (x, y) in units, on the image cleared.
fn draw(word: u16, x: i32, y: i32, image: &mut [u8; 65536]) -> Ran {
    let _ = display::clear(image);
    display::run(&file_of(word, 0), machine_at(1, x, y), image, 1, b"")
}

fn read(image: &[u8; 65536], x: i32, y: i32) -> Result<u8, Refusal> {
    let x = Pixels(x);
    let y = Pixels(y);
    display::read_pixel(image, Pixel { x, y })
}

fn digit(image: &[u8; 65536], x: i32, y: i32) -> u8 {
    read(image, x, y).unwrap_or(0)
}

// The number of what an answer was refused for, or 0.
fn number_of<T: Drop>(answer: Result<T, Refusal>) -> u8 {
    answer.err().map_or(0, u8::from)
}

// How many pixels are lit, of all in the field.
fn lit(image: &[u8; 65536]) -> u32 {
    let mut lit = 0u32;
    for y in 0..512 {
        for x in 0..512 {
            if digit(image, x, y) != 0 {
                lit = lit.wrapping_add(1);
            }
        }
    }
    lit
}

fn lit_row(t: &mut Table<impl Print>, image: &[u8; 65536], expected: u32) {
    t.row(b"  pixels lit", lit(image), expected);
}

// ---- the edges, in the paper's order
fn halved(t: &mut Table<impl Print>, name: &[u8], unit: i32, pixel: i32) {
    t.row(name, units::pixels_of(Units(unit)).0, pixel);
}

fn halving(t: &mut Table<impl Print>) {
    halved(t, b"unit -3: its pixel", -3, -2);
    halved(t, b"unit -2: its pixel", -2, -1);
    halved(t, b"unit -1: its pixel", -1, -1);
    halved(t, b"unit 0: its pixel", 0, 0);
    halved(t, b"unit 1: its pixel", 1, 0);
    halved(t, b"unit 2: its pixel", 2, 1);
    halved(t, b"unit 1,023: its pixel", 1023, 511);
    halved(t, b"unit 1,024: its pixel", 1024, 512);
}

// A short vector that lights the pixels (0,0), (1,1) and (2,1), and no other.
fn three_pixels(t: &mut Table<impl Print>, name: &[u8], x: i32, y: i32, word: u16) {
    let mut image = [0u8; 65536];
    let ran = draw(word, x, y, &mut image);
    t.row(name, ran.counts.stores, 3);
    t.row(b"  pixel (0,0)", digit(&image, 0, 0), 3);
    t.row(b"  pixel (1,1)", digit(&image, 1, 1), 3);
    t.row(b"  pixel (2,1)", digit(&image, 2, 1), 3);
    lit_row(t, &image, 3);
}

fn no_length(t: &mut Table<impl Print>, name: &[u8], word: u16, stores: u32) {
    let mut image = [0u8; 65536];
    let ran = draw(word, 0, 0, &mut image);
    t.row(name, ran.counts.stores, stores);
    lit_row(t, &image, stores);
}

// From (100, 100) in units.
fn short_vector(t: &mut Table<impl Print>, name: &[u8], word: u16, x: i32, y: i32, stores: u32) {
    let ran = run_words(word, 0, machine_at(1, 100, 100), 1);
    t.row(name, ran.machine.x.0, x);
    t.row(b"  Y", ran.machine.y.0, y);
    t.row(b"  stores", ran.counts.stores, stores);
}

// Eight segments, the last of 4,096 words that end in two no-ops.
fn run_no_op(address: u16) -> Ran {
    let mut file = [18u16; 4114];
    file[0] = 1;
    file[1] = 8;
    file[17] = 4096;
    file[4112] = 0o164000;
    file[4113] = 0o164000;
    let mut image = [0u8; 65536];
    let m = display::start(display::fresh(), address).unwrap_or(display::fresh());
    display::run(&file, m, &mut image, 1, b"")
}

fn no_op_at(t: &mut Table<impl Print>, name: &[u8], address: u16, counter: u16) {
    let ran = run_no_op(address);
    t.row(name, ran.machine.counter, counter);
    t.row(b"  steps", ran.counts.steps, 1);
}

// From (10, 0). The two points stand at units (10,64) and (14,68); a step before the plot would put the first at (14,64).
fn run_graph(image: &mut [u8; 65536]) -> Ran {
    let mut m = machine_at(5, 10, 0);
    m.increment = 4;
    display::run(&file_of(0o040100, 0o040104), m, image, 2, b"")
}

fn graph(t: &mut Table<impl Print>) {
    let mut image = [0u8; 65536];
    let ran = run_graph(&mut image);
    t.row(b"mode 5, increment 4: stores", ran.counts.stores, 2);
    t.row(b"  pixel (5,32)", digit(&image, 5, 32), 3);
    t.row(b"  pixel (7,32)", digit(&image, 7, 32), 0);
    t.row(b"  pixel (7,34)", digit(&image, 7, 34), 3);
    lit_row(t, &image, 2);
    t.row(b"  X", ran.machine.x.0, 18);
    t.row(b"  Y", ran.machine.y.0, 68);
}

// A long vector, X +1,023; a refused one leaves the position and the counter.
fn far_right(t: &mut Table<impl Print>, name: &[u8], from: i32, answer: u8, x: i32, counter: u16) {
    let ran = run_words(0o001777, 0, machine_at(2, from, 0), 1);
    t.row(name, ran.answer, answer);
    t.row(b"  X", ran.machine.x.0, x);
    t.row(b"  counter", ran.machine.counter, counter);
}

// A short vector, X +8, that lights five pixels of row 0: 510 to 514, of which two are in the field.
fn over_the_edge(t: &mut Table<impl Print>, image: &[u8; 65536]) {
    t.row(b"  pixel (509,0)", digit(image, 509, 0), 0);
    t.row(b"  pixel (510,0)", digit(image, 510, 0), 3);
    t.row(b"  pixel (511,0)", digit(image, 511, 0), 3);
    t.row(
        b"  pixel (512,0): answer",
        number_of(read(image, 512, 0)),
        31,
    );
    t.row(
        b"  pixel (513,0): answer",
        number_of(read(image, 513, 0)),
        31,
    );
    t.row(
        b"  pixel (514,0): answer",
        number_of(read(image, 514, 0)),
        31,
    );
    lit_row(t, image, 2);
}

// Or 507 to 511, all of them in the field.
fn up_to_the_edge(t: &mut Table<impl Print>, image: &[u8; 65536]) {
    t.row(b"  pixel (506,0)", digit(image, 506, 0), 0);
    t.row(b"  pixel (507,0)", digit(image, 507, 0), 3);
    t.row(b"  pixel (511,0)", digit(image, 511, 0), 3);
    lit_row(t, image, 5);
}

fn at_the_edge(t: &mut Table<impl Print>) {
    let mut image = [0u8; 65536];
    let ran = draw(0o042000, 1020, 0, &mut image);
    t.row(b"lit from (1,020,0), X +8: stores", ran.counts.stores, 2);
    over_the_edge(t, &image);
    t.row(b"  X", ran.machine.x.0, 1028);
    let ran = draw(0o042000, 1014, 0, &mut image);
    t.row(b"lit from (1,014,0), X +8: stores", ran.counts.stores, 5);
    up_to_the_edge(t, &image);
    t.row(b"  X", ran.machine.x.0, 1022);
}

fn stop(t: &mut Table<impl Print>, name: &[u8], first: u16, second: u16, answer: u8, steps: u32) {
    let ran = run_words(first, second, display::fresh(), 10);
    t.row(name, ran.answer, answer);
    t.row(b"  steps", ran.counts.steps, steps);
}

// Two no-ops.
fn small_budget(t: &mut Table<impl Print>, name: &[u8], budget: u32, counter: u16) {
    let ran = run_words(0o164000, 0o164000, display::fresh(), budget);
    t.row(name, ran.answer, 0);
    t.row(b"  steps", ran.counts.steps, budget);
    t.row(b"  counter", ran.machine.counter, counter);
}

// A jump to itself, which never stops.
fn large_budget(
    t: &mut Table<impl Print>,
    name: &[u8],
    budget: u32,
    answer: u8,
    steps: u32,
    words: u32,
) {
    let ran = run_words(0o160000, 0, display::fresh(), budget);
    t.row(name, ran.answer, answer);
    t.row(b"  steps", ran.counts.steps, steps);
    t.row(b"  words", ran.counts.words, words);
}

// One segment, in a file that has room for 4,097 words of it.
fn long_segment(t: &mut Table<impl Print>, name: &[u8], size: u16, answer: u8) {
    let mut file = [0u16; 4101];
    file[0] = 1;
    file[1] = 1;
    file[2] = 4;
    file[3] = size;
    t.row(name, number_of(display::check(&file)), answer);
}

fn vectors(t: &mut Table<impl Print>) {
    three_pixels(t, b"pixels (0,0) to (2,1): stores", 0, 0, 0o041002);
    three_pixels(t, b"pixels (2,1) to (0,0): stores", 4, 2, 0o061102);
    no_length(t, b"lit vector of no length: stores", 0o040000, 1);
    no_length(t, b"the same, not lit: stores", 0o000000, 0);
    short_vector(t, b"041303 from (100,100): X", 0o041303, 105, 97, 3);
    short_vector(t, b"001303 from (100,100): X", 0o001303, 105, 97, 0);
    short_vector(t, b"020100 from (100,100): X", 0o020100, 100, 100, 0);
    short_vector(t, b"020301 from (100,100): X", 0o020301, 99, 99, 0);
}

fn positions(t: &mut Table<impl Print>) {
    no_op_at(t, b"no-op at 65,534: counter", 65534, 0);
    no_op_at(t, b"no-op at 65,532: counter", 65532, 65534);
    graph(t);
    far_right(t, b"X 3,072 with +1,023: answer", 3072, 0, 4095, 4);
    far_right(t, b"X 3,073 with +1,023: answer", 3073, 27, 3073, 0);
    three_pixels(t, b"lit from (1,1) to (4,2): stores", 1, 1, 0o040601);
    three_pixels(t, b"lit from (4,2) to (1,1): stores", 4, 2, 0o060701);
    at_the_edge(t);
}

fn runs(t: &mut Table<impl Print>) {
    stop(t, b"171400 then 172000: answer", 0o171400, 0o172000, 2, 2);
    stop(t, b"172000 alone: answer", 0o172000, 0, 1, 1);
    small_budget(t, b"budget 0: answer", 0, 0);
    small_budget(t, b"budget 1: answer", 1, 2);
    large_budget(t, b"budget 1,000,000: answer", 1000000, 0, 1000000, 2000000);
    large_budget(t, b"budget 1,000,001: answer", 1000001, 17, 0, 0);
    long_segment(t, b"segment of 4,096 words: answer", 4096, 0);
    long_segment(t, b"segment of 4,097 words: answer", 4097, 15);
}

fn main(rt: HostRuntime) {
    let mut table = table::head(&rt);
    halving(&mut table);
    vectors(&mut table);
    positions(&mut table);
    runs(&mut table);
    table.foot();
}
