//! The built-in scheme.
ghost use Rattle.std.specs.Prelude.{◌≡◌, map, IfOk};
ghost use Rattle.qd_scheme.specs.Builtin.{count, price, quote_def, trade_def, candle_def, order_def, builtin_defs};

use crate::NoMemory;
use crate::defs::{FieldDef, FieldKind, Fields, RecordDef};
use crate::faults::SchemeFault;
use crate::names::Name;
use crate::scheme::Scheme;
use std::alloc::{AllocError, Global};

impl Scheme {
    /// Quote and Trade, and the history records Candle and Order. Prices have four digits after the point.
    #[tactic(auto, unfolding(crate::specs::Faults::scheme_fault))]
    pub fn builtin(alloc: Global) -> Result<Scheme, NoMemory>
        ensures { IfOk result (λ scheme. scheme ≡ builtin_defs) }
    {
        match Scheme::new(alloc, builtin_defs(alloc)?) {
            Ok(scheme) => Ok(scheme),
            Err(SchemeFault::NoMemory) => Err(AllocError),
            Err(SchemeFault::Wrong { .. }) => unreachable!(),
        }
    }
}

fn builtin_defs(alloc: Global) -> Result<Vec<RecordDef>, NoMemory>
    ensures { IfOk result (λ defs. defs.items ≡ builtin_defs) }
{
    let mut defs = Vec::with_capacity(alloc, 4)?;
    defs.push(quote(alloc)?)?;
    defs.push(trade(alloc)?)?;
    defs.push(candle(alloc)?)?;
    defs.push(order(alloc)?)?;
    Ok(defs)
}

fn quote(alloc: Global) -> Result<RecordDef, NoMemory>
    ensures { IfOk result (λ def. def ≡ quote_def) }
{
    let mut fields = Fields::new(alloc);
    fields.push(price(alloc, b"BidPrice")?)?;
    fields.push(count(alloc, b"BidSize")?)?;
    fields.push(price(alloc, b"AskPrice")?)?;
    fields.push(count(alloc, b"AskSize")?)?;
    let name = Name::new(alloc, b"Quote")?;
    Ok(RecordDef {
        name,
        hist: false,
        fields,
    })
}

fn trade(alloc: Global) -> Result<RecordDef, NoMemory>
    ensures { IfOk result (λ def. def ≡ trade_def) }
{
    let mut fields = Fields::new(alloc);
    fields.push(price(alloc, b"Price")?)?;
    fields.push(count(alloc, b"Size")?)?;
    fields.push(count(alloc, b"Volume")?)?;
    let name = Name::new(alloc, b"Trade")?;
    Ok(RecordDef {
        name,
        hist: false,
        fields,
    })
}

fn candle(alloc: Global) -> Result<RecordDef, NoMemory>
    ensures { IfOk result (λ def. def ≡ candle_def) }
{
    let mut fields = Fields::new(alloc);
    fields.push(price(alloc, b"Open")?)?;
    fields.push(price(alloc, b"High")?)?;
    fields.push(price(alloc, b"Low")?)?;
    fields.push(price(alloc, b"Close")?)?;
    fields.push(count(alloc, b"Volume")?)?;
    let name = Name::new(alloc, b"Candle")?;
    Ok(RecordDef {
        name,
        hist: true,
        fields,
    })
}

fn order(alloc: Global) -> Result<RecordDef, NoMemory>
    ensures { IfOk result (λ def. def ≡ order_def) }
{
    let mut fields = Fields::new(alloc);
    fields.push(price(alloc, b"Price")?)?;
    fields.push(count(alloc, b"Size")?)?;
    fields.push(count(alloc, b"Side")?)?;
    let name = Name::new(alloc, b"Order")?;
    Ok(RecordDef {
        name,
        hist: true,
        fields,
    })
}

fn count(alloc: Global, name: &[u8]) -> Result<FieldDef, NoMemory>
    ensures { IfOk result (λ field. field ≡ count name.now) }
{
    let name = Name::new(alloc, name)?;
    Ok(FieldDef {
        name,
        kind: FieldKind::Int,
    })
}

fn price(alloc: Global, name: &[u8]) -> Result<FieldDef, NoMemory>
    ensures { IfOk result (λ field. field ≡ price name.now) }
{
    let name = Name::new(alloc, name)?;
    Ok(FieldDef {
        name,
        kind: FieldKind::Dec(4),
    })
}
