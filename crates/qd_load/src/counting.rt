//! A hub that counts what it gives.

ghost use Rattle.std.specs.Prelude.{◌≡◌, ◌≢◌, ◌<◌, ◌+◌, [], ℕ, IfOk, IfSome, length, sum};
ghost use Rattle.qd_hub.specs.Hubs.{TickerPass, StreamPass, HistoryPass};
ghost use Rattle.qd_load.specs.Counting.{IsCounted, NoneMissed, entries_in, stopped};
ghost use Rattle.qd_load.specs.Given.{items_of, records_in, lost_in};

use crate::counts::{add_at, lost_in, no_counts, records_in, total};
use crate::totals::Totals;
use crate::views::{Views, entries_in, hear_at, no_views};
use qd_gate::NoTurn;
use qd_hist_rules::HistoryReply;
use qd_hub::{HistoryOp, Hub, StreamOp, StreamReply, TickerOp, TickerReply};
use qd_sub::Reply;
use std::alloc::{AllocError, Global};
use std::marker::Model;

/// A hub, and of each of its stripes what the stripe gave: the number of records, of items and of lost ones, and a listener of
/// each key of the generated script.
#[derive(Drop)]
pub struct Counting<H: Hub> {
    hub: H,
    records: Vec<u64>,
    items: Vec<u64>,
    lost: Vec<u64>,
    views: Vec<Views>,
}

impl<H: Hub> Model for Counting<H> {
    ghost use Rattle.std.specs.Prelude.{◌≡◌, length};
    ghost use Rattle.qd_hub.specs.Hubs.{HasLists};
    ghost use Rattle.qd_load.specs.Counting.{Seen, CountsRecords, CountsItems, HearsEvents};

    ghost Value = { Seen H };

    ghost view = { λ c. record { hub = c.hub; records = c.records.items; items = c.items.items; lost = c.lost.items; views = c.views.items } };

    ghost invariant = { λ c. (length c.records.items ≡ H.stripes c.hub) × (length c.items.items ≡ H.stripes c.hub) × (length c.lost.items ≡ H.stripes c.hub) × (length c.views.items ≡ H.stripes c.hub)
        × HasLists (H.stripes c.hub) (CountsRecords (H.ticker c.hub) c.records.items)
        × HasLists (H.stripes c.hub) (CountsItems (H.stream c.hub) c.items.items c.lost.items)
        × HasLists (H.stripes c.hub) (HearsEvents (H.history c.hub) c.views.items) };
}

/// The records that a reply of the ticker gave are counted.
fn count_records(records: &mut Vec<u64>, stripe: u8, reply: &TickerReply)
    requires { stripe < length records.old.items }
    ensures len { length records.new.items ≡ length records.old.items }
    ensures here { (n : ℕ) → IsCounted records.old.items stripe n → IsCounted records.new.items stripe (n + length (items_of reply.now)) }
    ensures others { (i n : ℕ) → i ≢ stripe → IsCounted records.old.items i n → IsCounted records.new.items i n }
{
    if let Reply::Items(given) = reply {
        add_at(records, stripe, given.as_slice().len() as u64);
    }
}

/// The items that a reply of the stream gave are counted.
fn count_items(items: &mut Vec<u64>, lost: &mut Vec<u64>, stripe: u8, reply: &StreamReply)
    requires items { stripe < length items.old.items }
    requires lost { stripe < length lost.old.items }
    ensures here { (n m : ℕ) → IsCounted items.old.items stripe n → IsCounted lost.old.items stripe m
        → IsCounted items.new.items stripe (n + records_in (items_of reply.now)) × IsCounted lost.new.items stripe (m + lost_in (items_of reply.now)) }
    ensures len { (length items.new.items ≡ length items.old.items) × (length lost.new.items ≡ length lost.old.items) }
    ensures others { (i n m : ℕ) → i ≢ stripe → IsCounted items.old.items i n → IsCounted lost.old.items i m → IsCounted items.new.items i n × IsCounted lost.new.items i m }
{
    if let Reply::Items(given) = reply {
        add_at(items, stripe, records_in(given.as_slice()));
        add_at(lost, stripe, lost_in(given.as_slice()));
    }
}

impl<H: Hub> Hub for Counting<H> {
    ghost use Rattle.std.specs.Prelude.{◌≡◌, ℕ};
    ghost use Rattle.qd_load.specs.Counting.{CountsRecords, CountsItems, HearsEvents};

    ghost is_alone = { λ c. H.is_alone c.hub };

    ghost home = { λ c. H.home c.hub };

    ghost stripes = { λ c. H.stripes c.hub };

    ghost ticker_terms = { λ c. H.ticker_terms c.hub };

    ghost ticker_number = { λ c. H.ticker_number c.hub };

    ghost ticker = { λ c. CountsRecords (H.ticker c.hub) c.records };

    ghost stream_terms = { λ c. H.stream_terms c.hub };

    ghost stream_number = { λ c. H.stream_number c.hub };

    ghost stream = { λ c. CountsItems (H.stream c.hub) c.items c.lost };

    ghost history_terms = { λ c. H.history_terms c.hub };

    ghost history_number = { λ c. H.history_number c.hub };

    ghost history = { λ c. HearsEvents (H.history c.hub) c.views };

    fn stripes(&self) -> u8 {
        self.hub.stripes()
    }

    fn try_ticker(&mut self, stripe: u8, op: TickerOp) -> Result<TickerReply, NoTurn<TickerOp>> {
        let answer = self.hub.try_ticker(stripe, op);
        if let Ok(reply) = &answer {
            count_records(&mut self.records, stripe, reply);
        }
        answer
    }

    fn try_stream(&mut self, stripe: u8, op: StreamOp) -> Result<StreamReply, NoTurn<StreamOp>> {
        let answer = self.hub.try_stream(stripe, op);
        if let Ok(reply) = &answer {
            count_items(&mut self.items, &mut self.lost, stripe, reply);
        }
        answer
    }

    fn try_history(
        &mut self,
        stripe: u8,
        op: HistoryOp,
    ) -> Result<HistoryReply, NoTurn<HistoryOp>> {
        let answer = self.hub.try_history(stripe, op);
        if let Ok(reply) = &answer {
            hear_at(&mut self.views, stripe, reply);
        }
        answer
    }
}

impl<H: Hub> Counting<H> {
    /// Nothing was given yet.
    pub fn new(alloc: Global, hub: H) -> Result<Counting<H>, AllocError>
        requires ticker { (i : ℕ) → i < H.stripes hub → (p : TickerPass) × H.ticker hub i p × (p.mine ≡ []) }
        requires stream { (i : ℕ) → i < H.stripes hub → (p : StreamPass) × H.stream hub i p × (p.mine ≡ []) }
        requires history { (i : ℕ) → i < H.stripes hub → (p : HistoryPass) × H.history hub i p × (p.mine ≡ []) }
        ensures same { IfOk result (λ c. (H.is_alone hub → ⟦<Counting<H> as Hub>⟧.is_alone c) × (⟦<Counting<H> as Hub>⟧.stripes c ≡ H.stripes hub)) }
        ensures ticker { IfOk result (λ c. (i : ℕ) (p : TickerPass) → i < H.stripes hub → H.ticker hub i p → p.mine ≡ [] → ⟦<Counting<H> as Hub>⟧.ticker c i p) }
        ensures stream { IfOk result (λ c. (i : ℕ) (p : StreamPass) → i < H.stripes hub → H.stream hub i p → p.mine ≡ [] → ⟦<Counting<H> as Hub>⟧.stream c i p) }
        ensures history { IfOk result (λ c. (i : ℕ) (p : HistoryPass) → i < H.stripes hub → H.history hub i p → p.mine ≡ [] → ⟦<Counting<H> as Hub>⟧.history c i p) }
    {
        let stripes = hub.stripes();
        let records = no_counts(alloc, stripes)?;
        let items = no_counts(alloc, stripes)?;
        let lost = no_counts(alloc, stripes)?;
        let views = no_views(alloc, stripes)?;
        Ok(Counting {
            hub,
            records,
            items,
            lost,
            views,
        })
    }

    /// What was counted over all stripes; none where memory was wanted for an event.
    pub fn totals(&self) -> Option<Totals>
        ensures records { IfSome result (λ t. t.records ≡ stopped (sum self.now.records)) }
        ensures items { IfSome result (λ t. t.items ≡ stopped (sum self.now.items)) }
        ensures lost { IfSome result (λ t. t.lost ≡ stopped (sum self.now.lost)) }
        ensures none_missed { IfSome result (λ t. NoneMissed self.now.views) }
        ensures entries { IfSome result (λ t. t.entries ≡ stopped (entries_in self.now.views)) }
        ensures stripes { (length self.now.records ≡ H.stripes self.now.hub) × (length self.now.items ≡ H.stripes self.now.hub) × (length self.now.lost ≡ H.stripes self.now.hub) × (length self.now.views ≡ H.stripes self.now.hub) }
    {
        let entries = entries_in(self.views.as_slice())?;
        Some(Totals {
            records: total(self.records.as_slice()),
            items: total(self.items.as_slice()),
            lost: total(self.lost.as_slice()),
            entries,
        })
    }
}
