//! The loop that polls the inbox, and gives its answers to a performer, item by item.

ghost use Rattle.std.specs.Prelude.{◌≡◌, ◌<◌, ◌∷◌, ◌+◌, drop, false, length};
ghost use Rattle.orca_course.specs.Courses.{each};
ghost use Rattle.orca_course.specs.Performed.{Performs, PerformsCame, PerformsFrom, PerformsPolls};
ghost use Rattle.orca_course.specs.Performers.{answer_turns, attended, begun, first_turns, given_course, items_of, last_turns, over_turns, performance, turn_course};
ghost use Rattle.orca_course.specs.Worlds.{AreSeated, has_ended};
ghost use Rattle.orca_rig.specs.Arrived.{arrived};

use crate::{Desk, Ending, Item, NoMemory, Performer, Stop};
use orca_base::limits::{ARRIVAL_BYTES, MAX_POLLS};
use orca_rig::{Answer, House};

/// The bytes that came with an answer.
pub(crate) fn arrived(answer: Answer, filled: &[u8; ARRIVAL_BYTES]) -> &[u8]
    ensures { result.now ≡ arrived answer filled.now }
{
    match answer {
        Answer::Bytes { count, .. } => filled.get(..usize::from(count)).unwrap_or(filled),
        Answer::Due { .. } | Answer::End | Answer::Failed => &[],
    }
}

/// How many items an answer brings.
#[tactic(auto, using(crate::proofs::ItemLemmas::bytes_length))]
fn item_count(answer: Answer, bytes: &[u8]) -> usize
    ensures { result ≡ length (items_of answer bytes.now) }
{
    match answer {
        Answer::Bytes { .. } => bytes.len(),
        Answer::Due { .. } => 1,
        Answer::End | Answer::Failed => 0,
    }
}

/// The item of that index. It goes before those after it.
fn item_at(answer: Answer, bytes: &[u8], index: usize) -> Item
    requires { index < length (items_of answer bytes.now) }
    ensures { drop index (items_of answer bytes.now)
        ≡ result ∷ drop (index + 1) (items_of answer bytes.now) }
{
    match answer {
        Answer::Bytes { hand, at, .. } => Item::Byte {
            hand,
            at,
            byte: bytes[index],
        },
        Answer::Due { at } => Item::Due { at },
        Answer::End | Answer::Failed => unreachable!(),
    }
}

/// Gives an item to a performer.
fn give<P: Performer, H: House>(
    performer: &mut P,
    desk: &mut Desk<H>,
    item: Item,
) -> Result<Option<Ending>, NoMemory>
    requires { AreSeated (P.part.seats (P.state performer.old)) desk.old }
    ensures { Performs P.Performer.own (given_course P.part item)
        performer.old desk.old result performer.new desk.new }
{
    let end = performer.take(desk, item)?;
    Ok(end.map(Ending::Stopped))
}

/// Gives what an answer brings, one by one. What comes after the end of the performance is dropped.
#[tactic(auto, using(crate::proofs::DoingLemmas::far_none, crate::proofs::DoingLemmas::far_over, std::proofs::lemmas::List::drop_all))]
fn give_items<P: Performer, H: House>(
    performer: &mut P,
    desk: &mut Desk<H>,
    answer: Answer,
    bytes: &[u8],
) -> Result<Option<Ending>, NoMemory>
    requires { AreSeated (P.part.seats (P.state performer.old)) desk.old }
    ensures { Performs P.Performer.own (each (given_course P.part) (items_of answer bytes.now))
        performer.old desk.old result performer.new desk.new }
{
    performer.is_deaf();
    performer.is_steady();
    for index in 0..item_count(answer, bytes) {
        if let Some(ending) = give(performer, desk, item_at(answer, bytes, index))? {
            return Ok(Some(ending));
        }
    }
    Ok(None)
}

/// Gives that it was all, and then what the calls came to.
fn settle<P: Performer, H: House>(
    performer: &mut P,
    desk: &mut Desk<H>,
) -> Result<Option<Ending>, NoMemory>
    requires { AreSeated (P.part.seats (P.state performer.old)) desk.old }
    ensures { PerformsCame P.Performer.own (λ came. each (turn_course P.part) (over_turns came))
        performer.old desk.old result performer.new desk.new }
{
    performer.is_deaf();
    performer.is_steady();
    if let Some(ending) = give(performer, desk, Item::Settle)? {
        return Ok(Some(ending));
    }
    let came = desk.losses();
    give(performer, desk, Item::Over(came))
}

/// Gives that it was all, and what the calls came to. The last answers end the performance.
fn give_last<P: Performer, H: House>(
    performer: &mut P,
    desk: &mut Desk<H>,
    answer: Answer,
) -> Result<Option<Ending>, NoMemory>
    requires { AreSeated (P.part.seats (P.state performer.old)) desk.old }
    ensures { PerformsCame P.Performer.own
        (λ came. each (turn_course P.part) (last_turns answer came))
        performer.old desk.old result performer.new desk.new }
{
    match answer {
        Answer::End => Ok(Some(Ending::Stopped(Stop::Left))),
        Answer::Failed => Ok(Some(Ending::Lost)),
        Answer::Bytes { .. } | Answer::Due { .. } => settle(performer, desk),
    }
}

/// Gives what an answer brings, and that it was all.
fn heed<P: Performer, H: House>(
    performer: &mut P,
    desk: &mut Desk<H>,
    answer: Answer,
    bytes: &[u8],
) -> Result<Option<Ending>, NoMemory>
    requires { AreSeated (P.part.seats (P.state performer.old)) desk.old }
    ensures { PerformsCame P.Performer.own
        (λ came. each (turn_course P.part) (answer_turns answer bytes.now came))
        performer.old desk.old result performer.new desk.new }
{
    performer.is_deaf();
    performer.is_steady();
    if let Some(ending) = give_items(performer, desk, answer, bytes)? {
        return Ok(Some(ending));
    }
    give_last(performer, desk, answer)
}

/// Polls the inbox, and gives what each answer brings, until the performance ends.
fn attend<P: Performer, H: House>(performer: &mut P, desk: &mut Desk<H>) -> Result<Ending, NoMemory>
    requires open { has_ended desk.old ≡ false }
    requires seated { AreSeated (P.part.seats (P.state performer.old)) desk.old }
    ensures { PerformsPolls P.Performer.own (attended P.part)
        performer.old desk.old result performer.new desk.new }
{
    performer.is_deaf();
    performer.is_steady();
    let mut bytes = [0; ARRIVAL_BYTES];
    for _turn in 0..MAX_POLLS {
        let answer = desk.poll(performer.until(), &mut bytes);
        if let Some(ending) = heed(performer, desk, answer, arrived(answer, &bytes))? {
            return Ok(ending);
        }
    }
    Ok(Ending::Spent)
}

/// Gives that the performance begins, and then what the calls came to.
fn open<P: Performer, H: House>(
    performer: &mut P,
    desk: &mut Desk<H>,
) -> Result<Option<Ending>, NoMemory>
    requires { AreSeated (P.part.seats (P.state performer.old)) desk.old }
    ensures { PerformsCame P.Performer.own (λ came. each (turn_course P.part) (first_turns came))
        performer.old desk.old result performer.new desk.new }
{
    performer.is_deaf();
    performer.is_steady();
    if let Some(ending) = give(performer, desk, Item::Start)? {
        return Ok(Some(ending));
    }
    let came = desk.losses();
    give(performer, desk, Item::Open(came))
}

/// Gives what comes first, and then polls until the performance ends.
fn begin<P: Performer, H: House>(performer: &mut P, desk: &mut Desk<H>) -> Result<Ending, NoMemory>
    requires open { has_ended desk.old ≡ false }
    requires seated { AreSeated (P.part.seats (P.state performer.old)) desk.old }
    ensures { PerformsFrom P.Performer.own (begun P.part)
        performer.old desk.old result performer.new desk.new }
{
    performer.is_deaf();
    performer.is_steady();
    if let Some(ending) = open(performer, desk)? {
        return Ok(ending);
    }
    attend(performer, desk)
}

/// Performs from what comes first to the end.
///
/// If memory is refused by a send, nothing follows it. If it is refused elsewhere, the notes still
/// sound: the caller ends them.
pub fn perform<P: Performer, H: House>(
    performer: &mut P,
    desk: &mut Desk<H>,
) -> Result<Ending, NoMemory>
    // The inbox has not ended.
    requires open { has_ended desk.old ≡ false }
    // The hands are there that it may tell.
    requires seated { AreSeated (P.part.seats (P.state performer.old)) desk.old }
    ensures { PerformsFrom P.Performer.own (performance P.part)
        performer.old desk.old result performer.new desk.new }
{
    performer.is_deaf();
    performer.is_steady();
    let ending = begin(performer, desk)?;
    performer.take(desk, Item::Ended(ending))?;
    Ok(ending)
}
