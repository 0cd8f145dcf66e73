//! New stripes, and rows of gates for them.

ghost use Rattle.std.specs.Prelude.{◌≡◌, ◌≤◌, IfOk};
ghost use Rattle.qd_ticker.specs.Legal.{no_terms};
ghost use Rattle.qd_stream.specs.Legal as stream;
ghost use Rattle.qd_hist_rules.specs.Legal as history;
ghost use Rattle.qd_hub.specs.Owns.{AllNew};
ghost use Rattle.qd_hub.specs.Clients.{AreFirst};

use qd_gate::{Machine, NoMemory};
use qd_history::HistoryStripe;
use qd_row::{Row, RowPass};
use qd_stream::StreamStripe;
use qd_ticker::TickerStripe;
use std::alloc::Global;

pub(crate) fn ticker_states(
    alloc: Global,
    stripes: u8,
    seed: u64,
) -> Result<Vec<TickerStripe>, NoMemory>
    ensures { IfOk result (λ v. AllNew ⟦<TickerStripe as Machine>⟧.stands ⟦<TickerStripe as Machine>⟧.terms stripes no_terms v.items) }
{
    let mut states = Vec::with_capacity(alloc, stripes as usize)?;
    for _stripe in 0..stripes {
        states.push(TickerStripe::with_seed(alloc, seed)?)?;
    }
    Ok(states)
}

pub(crate) fn stream_states(
    alloc: Global,
    stripes: u8,
    cap: u16,
    seed: u64,
) -> Result<Vec<StreamStripe>, NoMemory>
    ensures { IfOk result (λ v. AllNew ⟦<StreamStripe as Machine>⟧.stands ⟦<StreamStripe as Machine>⟧.terms stripes (stream.terms_of cap) v.items) }
{
    let mut states = Vec::with_capacity(alloc, stripes as usize)?;
    for _stripe in 0..stripes {
        states.push(StreamStripe::with_seed(alloc, cap, seed)?)?;
    }
    Ok(states)
}

pub(crate) fn history_states(
    alloc: Global,
    stripes: u8,
    hcap: u16,
    seed: u64,
) -> Result<Vec<HistoryStripe>, NoMemory>
    requires { (1 ≤ hcap) × (hcap ≤ 4096) }
    ensures { IfOk result (λ v. AllNew ⟦<HistoryStripe as Machine>⟧.stands ⟦<HistoryStripe as Machine>⟧.terms stripes (history.terms_of hcap 0) v.items) }
{
    let mut states = Vec::with_capacity(alloc, stripes as usize)?;
    for _stripe in 0..stripes {
        states.push(HistoryStripe::with_seed(alloc, hcap, seed)?)?;
    }
    Ok(states)
}

pub(crate) fn ticker_gates(
    alloc: Global,
    stripes: u8,
) -> Result<(Row<TickerStripe>, RowPass<TickerStripe>), NoMemory>
    ensures { IfOk result (λ r. AreFirst r.0 stripes no_terms r.1) }
{
    let (mut row, mut passes) = Row::empty(alloc);
    for _stripe in 0..stripes {
        row.add(alloc, &mut passes, TickerStripe::new(alloc)?)?;
    }
    Ok((row, passes))
}

pub(crate) fn stream_gates(
    alloc: Global,
    stripes: u8,
    cap: u16,
) -> Result<(Row<StreamStripe>, RowPass<StreamStripe>), NoMemory>
    ensures { IfOk result (λ r. AreFirst r.0 stripes (stream.terms_of cap) r.1) }
{
    let (mut row, mut passes) = Row::empty(alloc);
    for _stripe in 0..stripes {
        row.add(alloc, &mut passes, StreamStripe::new(alloc, cap)?)?;
    }
    Ok((row, passes))
}

pub(crate) fn history_gates(
    alloc: Global,
    stripes: u8,
    hcap: u16,
) -> Result<(Row<HistoryStripe>, RowPass<HistoryStripe>), NoMemory>
    requires { (1 ≤ hcap) × (hcap ≤ 4096) }
    ensures { IfOk result (λ r. AreFirst r.0 stripes (history.terms_of hcap 0) r.1) }
{
    let (mut row, mut passes) = Row::empty(alloc);
    for _stripe in 0..stripes {
        row.add(alloc, &mut passes, HistoryStripe::new(alloc, hcap)?)?;
    }
    Ok((row, passes))
}
