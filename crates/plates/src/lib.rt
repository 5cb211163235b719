// The C interface: checking an outline, finding a plate's record, choosing, choosing quickly, with one length revised, and for a range of prices,
// listing a marked set, reading a tree from text, writing it as text, showing an outline to a house reader and to a buyer's, writing the house form
// of a tree and comparing two, over memory that the caller lends. include/plates.h declares these functions.
#![tactic(auto)]

ghost use Rattle.std.specs.Prelude.{◌≡◌, ◌≤◌, ◌-◌, ◌∷◌, length, replicate};
ghost use Rattle.refusals.specs.Refusals.{ruling, refusal as told, told as told_of};
ghost use Rattle.outline.specs.Answer.{checked, found_at};
ghost use Rattle.reading.specs.Answer.{call as reading, Numbers};
ghost use Rattle.writing.specs.Answer.{call as writing};
ghost use Rattle.choice.specs.Answer.{call, numbers_of};
ghost use Rattle.quick.specs.Answer.{call as picking};
ghost use Rattle.revise.specs.Answer.{call as revising};
ghost use Rattle.range.specs.Answer.{call as ranging};
ghost use Rattle.sheet.specs.Answer.{call as listing};
ghost use Rattle.house.specs.Answer.{call as forming};
ghost use Rattle.house.specs.Compared.{call as comparing};
ghost use Rattle.view.specs.Answer.{call as viewing};
ghost use Rattle.view.specs.View.{house_view, buyer_view};
ghost use Rattle.plates.specs.Interface.{Chosen, QuicklyChosen, LengthRevised, SurelyChosen, SheetListed, TextRead, TextWritten, Viewed, Formed, TreesCompared, Given, ruling_in};
ghost use Rattle.outline.specs.Rules.{most_records};

use choice::{Figures, choose};
use house::{compare, house_form};
use outline::{check, find_record};
use quick::quick;
use range::range;
use reading::read;
use refusals::Refusal;
use revise::revise;
use sheet::sheet as list;
use view::{view_buyer, view_house};
use writing::write;

// Writes the number and the place of a refusal, and 0 for each of the figures; gives the number.
fn refuse(refusal: Refusal, answer: &mut [u32]) -> u32
    requires room { 2 ≤ length answer.old }
    requires placed { (told refusal).place ≤ most_records }
    ensures written { answer.new ≡ (told refusal).number ∷ (told refusal).place ∷ replicate (length answer.old - 2) 0 }
    ensures number { result ≡ (told refusal).number }
{
    answer.fill(0);
    answer[0] = refusal.number();
    answer[1] = refusal.place() as u32;
    answer[0]
}

// The six numbers of a choice.
fn chosen(f: Figures) -> [u32; 6]
    ensures { result ≡ 0 ∷ 0 ∷ numbers_of f }
{
    [0, 0, f.diversity, f.cost, f.taxa, f.spare]
}

// Writes number and place of what a function without figures answers; gives the number.
fn tell(answered: Result<(), Refusal>, answer: &mut [u32; 2]) -> u32
    requires { (told_of answered).place ≤ most_records }
    ensures { Given 2 ruling_in (λ t. t ≡ told_of answered) result answer.new }
{
    match answered {
        Ok(()) => {
            *answer = [0, 0];
            0
        }
        Err(refusal) => refuse(refusal, answer),
    }
}

// 0, or the number of the first row of the table that refuses an outline; writes its place.
#[unsafe(no_mangle)]
pub extern "C" fn plates_check(outline: &[u8], place: &mut u32) -> u32
    ensures { ruling result place.new ≡ checked outline.now }
{
    match check(outline) {
        Ok(()) => {
            *place = 0;
            0
        }
        Err(refusal) => {
            *place = refusal.place() as u32;
            refusal.number()
        }
    }
}

// The record of the taxon of a plate, 0 for none, as C asks.
#[unsafe(no_mangle)]
pub extern "C" fn plates_find(outline: &[u8], plate: u32) -> u32
    ensures { result ≡ found_at outline.now plate }
{
    find_record(outline, plate).unwrap_or(0) as u32
}

// Chooses, and writes number, place, diversity, cost, number of taxa and spare; the number is given as well.
#[unsafe(no_mangle)]
pub extern "C" fn plates_choose(
    outline: &[u8],
    count: u32,
    way: u32,
    marks: &mut [u8],
    curve: &mut [u32],
    work: &mut [u64],
    answer: &mut [u32; 6],
) -> u32
    ensures { Chosen
        (call outline.now count way marks.old curve.old work.old)
        result answer.new marks.new curve.new work.new }
{
    match choose(outline, count, way, marks, curve, work) {
        Ok(f) => {
            *answer = chosen(f);
            0
        }
        Err(refusal) => refuse(refusal, answer),
    }
}

// Chooses quickly, and writes number, place, diversity, cost and number of taxa, and beside them the ceiling; the number is given as well.
#[unsafe(no_mangle)]
pub extern "C" fn plates_quick(
    outline: &[u8],
    count: u32,
    picks: u32,
    marks: &mut [u8],
    answer: &mut [u32; 5],
    ceiling: &mut u64,
) -> u32
    ensures { QuicklyChosen
        (picking outline.now count picks marks.old)
        result answer.new ceiling.new marks.new }
{
    match quick(outline, count, picks, marks) {
        Ok(f) => {
            *ceiling = f.ceiling;
            *answer = [0, 0, f.diversity, f.cost, f.taxa];
            0
        }
        Err(refusal) => {
            *ceiling = 0;
            refuse(refusal, answer)
        }
    }
}

// Chooses on the outline with a new length of one record, and writes number, place, diversity, cost, number of taxa and spare, and beside them
// how far the best diversity and the length moved, both 0 on a refusal; the number is given as well.
#[unsafe(no_mangle)]
pub extern "C" fn plates_revise(
    outline: &[u8],
    changed: u32,
    to: u32,
    count: u32,
    way: u32,
    marks: &mut [u8],
    curve: &mut [u32],
    work: &mut [u64],
    answer: &mut [u32; 6],
    moved: &mut [i64; 2],
) -> u32
    ensures { LengthRevised
        (revising outline.now changed to count way marks.old curve.old work.old)
        result answer.new moved.new marks.new curve.new work.new }
{
    match revise(outline, changed, to, count, way, marks, curve, work) {
        Ok(f) => {
            *moved = [f.moved.best, f.moved.length];
            *answer = chosen(f.choice);
            0
        }
        Err(refusal) => {
            *moved = [0, 0];
            refuse(refusal, answer)
        }
    }
}

// Chooses at high prices, and writes number, place, diversity, cost, number of taxa and spare, and beside them the best diversity at low prices,
// 0 on a refusal; the number is given as well.
#[unsafe(no_mangle)]
pub extern "C" fn plates_range(
    low: &[u8],
    high: &[u8],
    count: u32,
    way: u32,
    marks: &mut [u8],
    curve: &mut [u32],
    work: &mut [u64],
    answer: &mut [u32; 6],
    roof: &mut u32,
) -> u32
    ensures { SurelyChosen
        (ranging low.now high.now count way marks.old curve.old work.old)
        result answer.new roof.new marks.new curve.new work.new }
{
    match range(low, high, count, way, marks, curve, work) {
        Ok(f) => {
            *roof = f.roof;
            *answer = chosen(f.choice);
            0
        }
        Err(refusal) => {
            *roof = 0;
            refuse(refusal, answer)
        }
    }
}

// Lists a marked set, and writes number, place, the number of rows and both sums; the number is given as well.
#[unsafe(no_mangle)]
pub extern "C" fn plates_sheet(
    outline: &[u8],
    way: u32,
    marks: &[u8],
    sheet: &mut [u32],
    answer: &mut [u32; 5],
) -> u32
    ensures { SheetListed
        (listing outline.now way marks.now sheet.old)
        result answer.new sheet.new }
{
    match list(outline, way, marks, sheet) {
        Ok(f) => {
            *answer = [0, 0, f.rows, f.quarters, f.diversity];
            0
        }
        Err(refusal) => refuse(refusal, answer),
    }
}

// Reads a tree from text, and writes number, place and the number of records; the number is given as well.
#[unsafe(no_mangle)]
pub extern "C" fn plates_read(
    text: &[u8],
    pairs: &[u32],
    outline: &mut [u8],
    answer: &mut [u32; 3],
) -> u32
    ensures answered { TextRead (reading text.now pairs.now outline.old) result answer.new outline.new }
    ensures numbers { Numbers pairs.now }
{
    match read(text, pairs, outline) {
        Ok(f) => {
            *answer = [0, 0, f.records as u32];
            0
        }
        Err(refusal) => refuse(refusal, answer),
    }
}

// Writes an outline as text and price pairs, and writes number, place and the counts of bytes and of pairs; the number is given as
// well.
#[unsafe(no_mangle)]
pub extern "C" fn plates_write(
    outline: &[u8],
    text: &mut [u8],
    pairs: &mut [u32],
    answer: &mut [u32; 4],
) -> u32
    ensures { TextWritten
        (writing outline.now text.old pairs.old)
        result answer.new text.new pairs.new }
{
    match write(outline, text, pairs) {
        Ok(f) => {
            *answer = [0, 0, f.bytes as u32, f.pairs as u32];
            0
        }
        Err(refusal) => refuse(refusal, answer),
    }
}

// Shows an outline to a house reader, and writes number and place; the number is given as well.
#[unsafe(no_mangle)]
pub extern "C" fn plates_view_house(outline: &[u8], view: &mut [u8], answer: &mut [u32; 2]) -> u32
    ensures { Viewed house_view (viewing outline.now view.old) result answer.new view.new }
{
    tell(view_house(outline, view), answer)
}

// Shows an outline to a buyer's reader, without prices and locks, and writes number and place; the number is given as well.
#[unsafe(no_mangle)]
pub extern "C" fn plates_view_buyer(outline: &[u8], view: &mut [u8], answer: &mut [u32; 2]) -> u32
    ensures { Viewed buyer_view (viewing outline.now view.old) result answer.new view.new }
{
    tell(view_buyer(outline, view), answer)
}

// Writes the house form of an outline, and writes number and place; the number is given as well.
#[unsafe(no_mangle)]
pub extern "C" fn plates_house_form(outline: &[u8], form: &mut [u8], answer: &mut [u32; 2]) -> u32
    ensures { Formed (forming outline.now form.old) result answer.new form.new }
{
    tell(house_form(outline, form), answer)
}

// Compares two trees by their house forms, and writes number and place, and beside them the order, 0 on a refusal; the number is given as well.
#[unsafe(no_mangle)]
pub extern "C" fn plates_compare(
    a: &[u8],
    b: &[u8],
    form_a: &mut [u8],
    form_b: &mut [u8],
    answer: &mut [u32; 2],
    order: &mut i32,
) -> u32
    ensures { TreesCompared
        (comparing a.now b.now form_a.old form_b.old)
        result answer.new order.new form_a.new form_b.new }
{
    match compare(a, b, form_a, form_b) {
        Ok(found) => {
            *order = found as i32;
            *answer = [0, 0];
            0
        }
        Err(refusal) => {
            *order = 0;
            refuse(refusal, answer)
        }
    }
}
