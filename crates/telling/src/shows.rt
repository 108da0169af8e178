//! What `show` prints.
ghost use Rattle.std.specs.Prelude.{◌≡◌, Some};
ghost use Rattle.entries.specs.Queue.{waiting};
ghost use Rattle.entries.specs.History.{history};
ghost use Rattle.head.specs.Words.{errors_of};
ghost use Rattle.telling.specs.Texts.{entries_text};
ghost use Rattle.telling.specs.Shows.{queue_line, history_line, nodes_text, filled, run_lines};
ghost use Rattle.telling.specs.Shows.{each_of, desk_line, head_lines, crossing_lines};
ghost use Rattle.telling.specs.Shows.{threshold_line, components_text, recipe_line, shown_text};

use crate::heads::{DictionaryLine, DllLine, Each, ErrorLines, Moment, NmtLine, SocLine};
use crate::styles::Style;
use crate::texts::{Bytes, EntryBytes};
use counters::counters::ByKind;
use entries::emergency_queue::EmergencyQueue;
use entries::error_history::ErrorHistory;
use entries::sizes::{HistoryBytes, QueueBytes};
use head::dictionary::od_of;
use head::errors::errors_of;
use head::machines::{dll_of, nmt_of};
use head::memory::{history_of, queue_of};
use head::state::Head;
use head::watch::{earliest_of, soc_of};
use recipes::{Component, Places};
use std::fmt;
use std::fmt::Display;
use watched::nodes::WatchedNode;
use weigh::WeighHead;

/// How it is printed, a weigh head, the memory of its queue and its history, the run of watched
/// nodes that is lent with its number, and the bytes on the desk.
#[derive(Clone, Copy)]
pub struct Shown<'a> {
    pub style: Style,
    pub head: &'a WeighHead,
    pub queue: &'a QueueBytes,
    pub history: &'a HistoryBytes,
    pub run: &'a [WatchedNode],
    pub number: usize,
    pub desk: &'a [u8],
}

#[tactic(auto, unfolding(crate::specs::Shows::show_text))]
impl Display for Shown<'_> {
    ghost output = { λ x. Some (shown_text x) };

    fn fmt<W: fmt::Write>(&self, f: &mut fmt::Formatter<W>) -> fmt::Result {
        let head = self.head.node();
        let places = self.head.places();
        write!(
            f,
            "{}{}{}{}{}{}{}{}",
            HeadLines(self.style, head),
            QueueLine(queue_of(head), self.queue),
            HistoryLine(history_of(head), self.history),
            RunLines(self.run, self.number),
            CrossingLines(head),
            DeskLine(self.desk),
            ThresholdLine(head),
            RecipeLine(&places)
        )
    }
}

// How often each counter was at its threshold.
fn crossings(head: &Head) -> ByKind<u32>
    ensures { result ≡ each_of (λ c. c.crossings_cnt) (errors_of head.now) }
{
    let counters = errors_of(head).counters;
    ByKind {
        collision: counters.collision.crossings_cnt,
        loss_of_soc: counters.loss_of_soc.crossings_cnt,
        loss_of_soa: counters.loss_of_soa.crossings_cnt,
        loss_of_preq: counters.loss_of_preq.crossings_cnt,
        soc_jitter: counters.soc_jitter.crossings_cnt,
        crc_errors: counters.crc_errors.crossings_cnt,
        heartbeat_timeout: counters.heartbeat_timeout.crossings_cnt,
    }
}

fn thresholds(head: &Head) -> ByKind<u32>
    ensures { result ≡ each_of (λ c. c.threshold) (errors_of head.now) }
{
    let counters = errors_of(head).counters;
    ByKind {
        collision: counters.collision.threshold,
        loss_of_soc: counters.loss_of_soc.threshold,
        loss_of_soa: counters.loss_of_soa.threshold,
        loss_of_preq: counters.loss_of_preq.threshold,
        soc_jitter: counters.soc_jitter.threshold,
        crc_errors: counters.crc_errors.threshold,
        heartbeat_timeout: counters.heartbeat_timeout.threshold,
    }
}

// The machines, the counters with the lost links, the watch over the cycle, the dictionary.
#[derive(Clone, Copy)]
struct HeadLines<'a>(Style, &'a Head);

#[tactic(auto, unfolding(crate::specs::Shows::head_lines))]
impl Display for HeadLines<'_> {
    ghost output = { λ x. Some (head_lines x.0 x.1.now) };

    fn fmt<W: fmt::Write>(&self, f: &mut fmt::Formatter<W>) -> fmt::Result {
        let HeadLines(style, head) = *self;
        write!(
            f,
            "{}{}{}{}{}",
            NmtLine(style, nmt_of(head)),
            DllLine(style, dll_of(head)),
            ErrorLines(errors_of(head)),
            SocLine(soc_of(head)),
            DictionaryLine(od_of(head))
        )
    }
}

// The earliest moment at which a watched node would be late, and the crossings.
#[derive(Clone, Copy)]
struct CrossingLines<'a>(&'a Head);

#[tactic(auto, unfolding(crate::specs::Shows::crossing_lines))]
impl Display for CrossingLines<'_> {
    ghost output = { λ x. Some (crossing_lines x.0.now) };

    fn fmt<W: fmt::Write>(&self, f: &mut fmt::Formatter<W>) -> fmt::Result {
        writeln!(
            f,
            "(earliest {})\n(crossings {})",
            Moment(earliest_of(self.0)),
            Each(crossings(self.0))
        )
    }
}

// The thresholds of the seven counters.
#[derive(Clone, Copy)]
struct ThresholdLine<'a>(&'a Head);

#[tactic(auto, unfolding(crate::specs::Shows::threshold_line))]
impl Display for ThresholdLine<'_> {
    ghost output = { λ x. Some (threshold_line x.0.now) };

    fn fmt<W: fmt::Write>(&self, f: &mut fmt::Formatter<W>) -> fmt::Result {
        writeln!(f, "(thresholds {})", Each(thresholds(self.0)))
    }
}

// The places of a recipe, each behind a space.
#[derive(Clone, Copy)]
struct Components<'a>(&'a [Component]);

impl Display for Components<'_> {
    ghost output = { λ x. Some (components_text x.0.now) };

    fn fmt<W: fmt::Write>(&self, f: &mut fmt::Formatter<W>) -> fmt::Result {
        for component in self.0 {
            write!(f, " ({} {})", component.bin, component.grams)?;
        }
        Ok(())
    }
}

// All places.
#[derive(Clone, Copy)]
struct RecipeLine<'a>(&'a Places);

#[tactic(auto, unfolding(crate::specs::Shows::recipe_line))]
impl Display for RecipeLine<'_> {
    ghost output = { λ x. Some (recipe_line x.0.now) };

    fn fmt<W: fmt::Write>(&self, f: &mut fmt::Formatter<W>) -> fmt::Result {
        let places = self.0;
        writeln!(f, "(recipe{})", Components(places))
    }
}

// The entries that wait, the oldest first.
#[derive(Clone, Copy)]
struct Waiting<'a>(EmergencyQueue, &'a QueueBytes);

#[tactic(auto, using(crate::proofs::EntriesShown::entry_more, crate::proofs::EntriesShown::entries_end, crate::proofs::EntriesShown::waiting_end))]
impl Display for Waiting<'_> {
    ghost output = { λ x. Some (entries_text (waiting x.1.now x.0)) };

    fn fmt<W: fmt::Write>(&self, f: &mut fmt::Formatter<W>) -> fmt::Result {
        for place in 0..32 {
            let Some(entry) = self.0.get(self.1, place) else {
                return Ok(());
            };
            write!(f, "{}", EntryBytes(entry))?;
        }
        Ok(())
    }
}

// The queue's capacity, and what waits.
#[derive(Clone, Copy)]
struct QueueLine<'a>(EmergencyQueue, &'a QueueBytes);

#[tactic(auto, unfolding(crate::specs::Shows::queue_line))]
impl Display for QueueLine<'_> {
    ghost output = { λ x. Some (queue_line x.1.now x.0) };

    fn fmt<W: fmt::Write>(&self, f: &mut fmt::Formatter<W>) -> fmt::Result {
        let QueueLine(queue, memory) = *self;
        writeln!(
            f,
            "(queue (capacity {}){})",
            queue.capacity,
            Waiting(queue, memory)
        )
    }
}

// The entries of the history, the newest first.
#[derive(Clone, Copy)]
struct Past<'a>(ErrorHistory, &'a HistoryBytes);

#[tactic(auto, using(crate::proofs::EntriesShown::entry_more, crate::proofs::EntriesShown::entries_end, crate::proofs::EntriesShown::history_end))]
impl Display for Past<'_> {
    ghost output = { λ x. Some (entries_text (history x.1.now x.0)) };

    fn fmt<W: fmt::Write>(&self, f: &mut fmt::Formatter<W>) -> fmt::Result {
        for place in 0..254 {
            let Some(entry) = self.0.get(self.1, place) else {
                return Ok(());
            };
            write!(f, "{}", EntryBytes(entry))?;
        }
        Ok(())
    }
}

#[derive(Clone, Copy)]
struct HistoryLine<'a>(ErrorHistory, &'a HistoryBytes);

#[tactic(auto, unfolding(crate::specs::Shows::history_line))]
impl Display for HistoryLine<'_> {
    ghost output = { λ x. Some (history_line x.1.now x.0) };

    fn fmt<W: fmt::Write>(&self, f: &mut fmt::Formatter<W>) -> fmt::Result {
        writeln!(f, "(history{})", Past(self.0, self.1))
    }
}

// Watched nodes, each behind a space.
#[derive(Clone, Copy)]
struct Nodes<'a>(&'a [WatchedNode]);

#[tactic(auto, unfolding(crate::specs::Shows::node_text))]
impl Display for Nodes<'_> {
    ghost output = { λ x. Some (nodes_text x.0.now) };

    fn fmt<W: fmt::Write>(&self, f: &mut fmt::Formatter<W>) -> fmt::Result {
        for node in self.0 {
            write!(f, " ({} {} {})", node.node, node.timeout, node.last_heard)?;
        }
        Ok(())
    }
}

// The places up to the last one that holds something.
#[tactic(auto, using(crate::proofs::Filled::none_behind, crate::proofs::Filled::some_behind), unfolding(crate::specs::Shows::filled))]
fn filled(places: &[WatchedNode]) -> &[WatchedNode]
    ensures { result.now ≡ filled places.now }
{
    let mut filled = places;
    while let Some((last, front)) = filled.split_last() {
        if *last != WatchedNode::NONE {
            return filled;
        }
        filled = front;
    }
    filled
}

// The nodes watched; then how many places are lent, the number, and the places past it up to the
// last one that holds something.
#[derive(Clone, Copy)]
struct RunLines<'a>(&'a [WatchedNode], usize);

#[tactic(auto, unfolding(crate::specs::Shows::run_lines))]
impl Display for RunLines<'_> {
    ghost output = { λ x. Some (run_lines x.0.now x.1) };

    fn fmt<W: fmt::Write>(&self, f: &mut fmt::Formatter<W>) -> fmt::Result {
        let RunLines(run, number) = *self;
        let (watched, rest) = run.split_at(number.min(run.len()));
        writeln!(
            f,
            "(watched{})\n(run (places {}) (number {number}) (rest{}))",
            Nodes(watched),
            run.len(),
            Nodes(filled(rest))
        )
    }
}

// The desk's bytes, where there are any.
#[derive(Clone, Copy)]
struct DeskLine<'a>(&'a [u8]);

#[tactic(auto, unfolding(crate::specs::Shows::desk_line))]
impl Display for DeskLine<'_> {
    ghost output = { λ x. Some (desk_line x.0.now) };

    fn fmt<W: fmt::Write>(&self, f: &mut fmt::Formatter<W>) -> fmt::Result {
        if self.0.is_empty() {
            return writeln!(f, "(desk)");
        }
        writeln!(f, "(desk{})", Bytes(self.0))
    }
}
