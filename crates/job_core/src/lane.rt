//! `Lane`, a lane of a core: it hears its entries, and gives up the events below a moment.

ghost use Rattle.std.specs.Prelude.{◌≡◌, ◌≤ℤ◌, pos, ◌+◌, ◌<◌, ◌^◌, ◌++◌, [], ◌∷◌, Some, IsTrue, ◌↔◌, IfOk, OnOk, length, map, get_or};
ghost use Rattle.arrival_log.specs.Kept.{entry_drop, events_below, kept_record};
ghost use Rattle.arrival_log.specs.Log.{Broken, End, Record, item_entry};
ghost use Rattle.job_core.specs.Heard.{IsBehindItem, events_from};
ghost use Rattle.query_meaning.specs.Streams.{row_of};

use event_value::{
    Copies, Dropped, Event, Item, Memory, Policy, Position, Rule, Seq, Stamped, Value,
};
use query_meaning::{stamp_of, substream_of};
use query_plan::StreamUse;
use std::alloc::Global;
use tick_time::{END, Moment};
use time_policy::{PolicyState, Verdict};

/// A lane of a core, which is a partition of a stream that the plan uses.
#[derive(Drop)]
pub struct Lane {
    used: StreamUse,
    partition: u16,
    throughs: Seq<Moment>,
    ended: bool,
    state: PolicyState,
    place: Position,
    kept: Seq<Event>,
    drops: Seq<Dropped>,
    ghost few: { length throughs < 2 ^ 32 },
}

/// What a lane gives up at a cut.
#[derive(Drop)]
pub struct Released {
    /// The lane without it.
    pub lane: Lane,
    /// The rows of the events below the moment of the cut.
    pub rows: Seq<Stamped>,
    /// The dropped records since the last cut.
    pub drops: Seq<Dropped>,
}

impl Lane {
    ghost use Rattle.job_core.specs.Lane.{HasHeard, HasUnread, Hears, HearsAll, IsFed, IsReleased};
    ghost use Rattle.job_core.specs.Lane.{IsSameLane, fed_entries, own_watermark};

    /// The lane of a partition of a stream, which has segments that end at these moments, before
    /// its first entry. It takes no memory.
    pub fn start(
        alloc: Global,
        policy: &Policy,
        used: StreamUse,
        partition: u16,
        throughs: Seq<Moment>,
        ended: bool,
    ) -> Lane
        requires late { pos 0 ≤ℤ policy.now.late }
        requires disorder { pos 0 ≤ℤ policy.now.disorder }
        requires few { length throughs < 2 ^ 32 }
        ensures heard { HasHeard policy.now used partition result [] [] 0 }
        ensures throughs { result.throughs ≡ throughs }
        ensures ended { result.ended ≡ ended }
    {
        let over = used.over.items().len() > 0;
        let state = PolicyState::start(alloc, policy, used.stamp.is_some(), over);
        Lane {
            used,
            partition,
            throughs,
            ended,
            state,
            place: Position {
                segment: 0,
                index: 0,
            },
            kept: Seq::empty(alloc),
            drops: Seq::empty(alloc),
        }
    }

    /// The lane's watermark; it is the last moment where the lane gets no more entries. It takes no
    /// memory.
    pub fn watermark(&self) -> Moment
        ensures { result ≡ own_watermark self.now }
    {
        if self.ended && self.place.segment as usize == self.throughs.items().len() {
            Moment::of_count(END as u64)
        } else {
            self.state.watermark()
        }
    }

    /// The place of its stream in the inputs document. It takes no memory.
    pub fn stream(&self) -> u16
        ensures { result ≡ self.now.used.stream }
    {
        self.used.stream
    }

    /// The number of its partition in the stream. It takes no memory.
    pub fn partition(&self) -> u16
        ensures { result ≡ self.now.partition }
    {
        self.partition
    }

    /// The place before the lane's next entry. It takes no memory.
    pub fn place(&self) -> Position
        ensures { result ≡ self.now.place }
    {
        self.place
    }

    /// Whether there are so many unread entries in the segment that the lane is in, whose items
    /// these are, its mark counted. It takes no memory.
    pub fn has_unread(&self, items: &[Item], n: u32) -> bool
        ensures { IsTrue result ↔ HasUnread self.now items.now n }
    {
        if self.place.segment as usize >= self.throughs.items().len() {
            return false;
        }
        if items.len() >= u32::MAX as usize {
            return false;
        }
        let index = self.place.index as usize;
        if index > items.len() {
            return false;
        }
        n as usize <= items.len() - index + 1
    }

    /// Hears the next `n` entries of the segment that the lane is in, whose items these are.
    ///
    /// # Errors
    /// `Memory` where there was none for the events and the dropped records.
    pub fn feed(self, alloc: Global, items: &[Item], n: u32) -> Result<Lane, Memory>
        requires { HasUnread self items.now n }
        ensures fed { IfOk result (λ lane. IsFed self (fed_entries self items.now n) lane) }
        ensures same { IfOk result (λ lane. IsSameLane self lane) }
    {
        let through = through_at(self.throughs.items(), self.place.segment as usize);
        let first = self.place.index as usize;
        let unread = items.len() - first;
        if n as usize <= unread {
            let last = first + n as usize;
            let lane = self.hear_items(alloc, through, &items[first..last])?;
            Ok(lane)
        } else {
            let lane = self.hear_items(alloc, through, &items[first..])?;
            Ok(lane.hear_end(through))
        }
    }

    // Hears items of a segment that ends at `through`.
    fn hear_items(self, alloc: Global, through: Moment, items: &[Item]) -> Result<Lane, Memory>
        requires { self.place.index + length items.now < 2 ^ 32 }
        ensures heard { IfOk result (λ lane. HearsAll self lane (map (item_entry through) items.now)) }
        ensures same { IfOk result (λ lane. IsSameLane self lane) }
        ensures place { IfOk result (λ lane. lane.place.segment ≡ self.place.segment) }
    {
        let mut lane = self;
        for item in items {
            lane = lane.hear_item(alloc, through, item)?;
        }
        Ok(lane)
    }

    // Hears an item of a segment that ends at `through`.
    fn hear_item(self, alloc: Global, through: Moment, item: &Item) -> Result<Lane, Memory>
        requires { self.place.index + 1 < 2 ^ 32 }
        ensures heard { IfOk result (λ lane. Hears self lane (item_entry through item.now)) }
        ensures same { IfOk result (λ lane. IsSameLane self lane) }
        ensures place { IfOk result (λ lane. IsBehindItem self.place lane.place) }
    {
        match item {
            Item::Good { enqueued, values } => {
                self.hear_record(alloc, *enqueued, through, values.items())
            }
            Item::Bad(rule) => self.hear_broken(*rule),
        }
    }

    // Hears a record of a segment that ends at `through`.
    fn hear_record(
        self,
        alloc: Global,
        enqueued: Moment,
        through: Moment,
        values: &[Value],
    ) -> Result<Lane, Memory>
        requires { self.place.index + 1 < 2 ^ 32 }
        ensures heard { IfOk result (λ lane. Hears self lane (Record enqueued through values.now)) }
        ensures same { IfOk result (λ lane. IsSameLane self lane) }
        ensures place { IfOk result (λ lane. IsBehindItem self.place lane.place) }
    {
        let place = self.place;
        let stamp = stamp_of(alloc, &self.used, values)?;
        let key = substream_of(alloc, &self.used, values)?;
        let (state, verdict) = self
            .state
            .take(alloc, enqueued, through, stamp, key.items())?;
        let drops = with_drop(
            self.drops,
            self.used.stream,
            self.partition,
            place,
            &verdict,
        )?;
        let kept = with_event(alloc, self.kept, self.partition, place, values, &verdict)?;
        Ok(Lane {
            used: self.used,
            partition: self.partition,
            throughs: self.throughs,
            ended: self.ended,
            state,
            place: behind(place),
            kept,
            drops,
        })
    }

    // Hears an item that is no record, by the rule that it breaks.
    fn hear_broken(self, rule: Rule) -> Result<Lane, Memory>
        requires { self.place.index + 1 < 2 ^ 32 }
        ensures heard { IfOk result (λ lane. Hears self lane (Broken rule)) }
        ensures same { IfOk result (λ lane. IsSameLane self lane) }
        ensures place { IfOk result (λ lane. IsBehindItem self.place lane.place) }
    {
        let place = self.place;
        let verdict = Verdict::Dropped(rule);
        let drops = with_drop(
            self.drops,
            self.used.stream,
            self.partition,
            place,
            &verdict,
        )?;
        Ok(Lane {
            used: self.used,
            partition: self.partition,
            throughs: self.throughs,
            ended: self.ended,
            state: self.state,
            place: behind(place),
            kept: self.kept,
            drops,
        })
    }

    // Hears the mark at the end of the segment that the lane is in.
    fn hear_end(self, through: Moment) -> Lane
        requires { self.place.segment < length self.throughs }
        ensures heard { Hears self result (End through) }
        ensures same { IsSameLane self result }
    {
        let few = self.throughs.items().len();
        let place = Position {
            segment: self.place.segment + 1,
            index: 0,
        };
        Lane {
            used: self.used,
            partition: self.partition,
            throughs: self.throughs,
            ended: self.ended,
            state: self.state.mark(through),
            place,
            kept: self.kept,
            drops: self.drops,
        }
    }

    /// Takes out the rows below a moment, and the dropped records.
    ///
    /// # Errors
    /// `Memory` where there was none for the lists.
    pub fn release(self, alloc: Global, upto: Moment) -> Result<Released, Memory>
        ensures released { IfOk result (λ released. IsReleased upto self released.lane released.rows) }
        ensures drops { IfOk result (λ released. released.drops ≡ self.drops) }
    {
        let (kept, rows) = split(alloc, self.kept, upto)?;
        let none = Seq::empty(alloc);
        let lane = Lane {
            used: self.used,
            partition: self.partition,
            throughs: self.throughs,
            ended: self.ended,
            state: self.state,
            place: self.place,
            kept,
            drops: none,
        };
        Ok(Released {
            lane,
            rows,
            drops: self.drops,
        })
    }
}

// The events at a moment or later, and the rows of the others.
fn split(
    alloc: Global,
    events: Seq<Event>,
    upto: Moment,
) -> Result<(Seq<Event>, Seq<Stamped>), Memory>
    ensures kept { IfOk result (λ (kept, rows). kept ≡ events_from upto events) }
    ensures rows { IfOk result (λ (kept, rows). rows ≡ map row_of (events_below upto events)) }
{
    let mut kept = Seq::empty(alloc);
    let mut rows = Seq::empty(alloc);
    for event in events.into_vec() {
        put_event(&mut kept, &mut rows, event, upto)?;
    }
    Ok((kept, rows))
}

// Puts an event to those at a moment or later, or its row to the others.
fn put_event(
    kept: &mut Seq<Event>,
    rows: &mut Seq<Stamped>,
    event: Event,
    upto: Moment,
) -> Result<(), Memory>
    ensures kept { OnOk result (kept.new ≡ kept.old ++ events_from upto (event ∷ [])) }
    ensures rows { OnOk result (rows.new ≡ rows.old ++ map row_of (events_below upto (event ∷ []))) }
{
    if event.time < upto {
        rows.push(Stamped {
            time: event.time,
            values: event.values,
        })?;
    } else {
        kept.push(event)?;
    }
    Ok(())
}

// The end of a segment; the first moment where there is no such segment.
fn through_at(throughs: &[Moment], segment: usize) -> Moment
    ensures { result ≡ get_or throughs.now segment 0 }
{
    match throughs.get(segment) {
        None => Moment::zero(),
        Some(through) => *through,
    }
}

// The place behind an item.
fn behind(place: Position) -> Position
    requires { place.index + 1 < 2 ^ 32 }
    ensures { IsBehindItem place result }
{
    Position {
        segment: place.segment,
        index: place.index + 1,
    }
}

// The events with that of a record at this place, if this verdict keeps it.
fn with_event(
    alloc: Global,
    events: Seq<Event>,
    partition: u16,
    place: Position,
    values: &[Value],
    verdict: &Verdict,
) -> Result<Seq<Event>, Memory>
    ensures { IfOk result (λ all.
        all ≡ events ++ kept_record partition place values.now (Some verdict.now)) }
{
    let mut events = events;
    if let Verdict::Kept(time) = verdict {
        events.push(Event {
            time: *time,
            partition,
            segment: place.segment,
            index: place.index,
            values: Seq::of(alloc, values)?,
        })?;
    }
    Ok(events)
}

// The dropped records with that of an item at this place, if this verdict drops it.
fn with_drop(
    drops: Seq<Dropped>,
    stream: u16,
    partition: u16,
    place: Position,
    verdict: &Verdict,
) -> Result<Seq<Dropped>, Memory>
    ensures { IfOk result (λ all.
        all ≡ drops ++ entry_drop stream partition place (Some verdict.now)) }
{
    let mut drops = drops;
    if let Verdict::Dropped(rule) = verdict {
        drops.push(Dropped {
            stream,
            partition,
            segment: place.segment,
            index: place.index,
            rule: *rule,
        })?;
    }
    Ok(drops)
}
