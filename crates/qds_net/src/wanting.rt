//! The keys that are wanted.

ghost use Rattle.std.specs.Prelude.{◌≡◌, map, option_map, IfOk};
ghost use Rattle.qd_words.specs.NetAsking.{wanted};
ghost use Rattle.qds_net.specs.Wanting.{sub_of, subs_of, takes_record};

use qd_scheme::{Key, RecordDef, Scheme};
use qd_sub::Sub;
use qd_text::Collector;
use qd_words::WantAsk;
use std::alloc::{AllocError, Global};

/// The keys of all wants; none where one of them says none. An `Err` is want of memory.
pub(crate) fn subs_of(
    alloc: Global,
    scheme: &Scheme,
    collector: Collector,
    limit: u64,
    wants: &[WantAsk<'_>],
) -> Result<Option<Vec<Sub>>, AllocError>
    ensures { IfOk result (λ subs. option_map (λ v. v.items) subs ≡ subs_of scheme.now collector limit (map wanted wants.now)) }
{
    let mut subs = Vec::new(alloc);
    for want in wants {
        let Some(sub) = sub_of(scheme, collector, limit, want) else {
            return Ok(None);
        };
        if subs.push(sub).is_err() {
            return Err(AllocError);
        }
    }
    Ok(Some(subs))
}

/// The key that a want says.
fn sub_of(scheme: &Scheme, collector: Collector, limit: u64, want: &WantAsk<'_>) -> Option<Sub>
    ensures { result ≡ sub_of scheme.now collector limit (wanted want.now) }
{
    let rec = scheme.find(want.name.as_bytes())?;
    let def = scheme.def(rec)?;
    if !takes_record(collector, def) {
        return None;
    }
    Some(Sub {
        key: Key {
            rec,
            sym: want.symbol,
        },
        limit,
    })
}

/// Whether a collector takes a record.
fn takes_record(collector: Collector, def: &RecordDef) -> bool
    ensures { result ≡ takes_record collector def.now }
{
    match collector {
        Collector::Ticker | Collector::Stream => true,
        Collector::History => def.hist,
    }
}
