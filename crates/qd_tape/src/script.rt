//! A script while it is written.

ghost use Rattle.std.specs.Prelude.{◌≡◌, ◌<◌, ◌≤◌, ◌+◌, ◌++◌, ◌∷◌, [], true, false, length, if◌then◌else◌, suc};
ghost use Rattle.qd_grammar.specs.declared.item.Item.TheVariants.{Head, End};
ghost use Rattle.qd_scheme.specs.Builtin.{builtin_defs};
ghost use Rattle.qd_tape.specs.declared.script.Stage.TheVariants.{Opening};
ghost use Rattle.qd_tape.specs.Scripts.{blocks_left, drawn, fed_block, fed_head, fed_item, is_taking, lines_text, first_items, opening_block, three_takes, text_left};

use crate::feed::{fed_head, fed_item, is_taking, next_drawn};
use crate::tape::add_line;
use qd_decimal::Line;
use qd_grammar::Item;
use qd_scheme::Scheme;
use std::marker::Model;

/// What a script begins with: ten symbols are subscribed to in each collector, and each of them has an empty history.
const OPENING: &[u8] = b"==PROTOCOL\t1\n\
    ==TICKER_ADD_SUBSCRIPTION\n\
    Quote\tS0\nQuote\tS1\nQuote\tS2\nQuote\tS3\nQuote\tS4\n\
    Quote\tS5\nQuote\tS6\nQuote\tS7\nQuote\tS8\nQuote\tS9\n\
    ==STREAM_ADD_SUBSCRIPTION\n\
    Trade\tS0\nTrade\tS1\nTrade\tS2\nTrade\tS3\nTrade\tS4\n\
    Trade\tS5\nTrade\tS6\nTrade\tS7\nTrade\tS8\nTrade\tS9\n\
    ==HISTORY_ADD_SUBSCRIPTION\n\
    Candle\tS0\t0\nCandle\tS1\t0\nCandle\tS2\t0\nCandle\tS3\t0\nCandle\tS4\t0\n\
    Candle\tS5\t0\nCandle\tS6\t0\nCandle\tS7\t0\nCandle\tS8\t0\nCandle\tS9\t0\n\
    ==HISTORY_DATA\n\
    Candle\tS0\t0\t14\t0\t0\t0\t0\t0\nCandle\tS1\t0\t14\t0\t0\t0\t0\t0\n\
    Candle\tS2\t0\t14\t0\t0\t0\t0\t0\nCandle\tS3\t0\t14\t0\t0\t0\t0\t0\n\
    Candle\tS4\t0\t14\t0\t0\t0\t0\t0\nCandle\tS5\t0\t14\t0\t0\t0\t0\t0\n\
    Candle\tS6\t0\t14\t0\t0\t0\t0\t0\nCandle\tS7\t0\t14\t0\t0\t0\t0\t0\n\
    Candle\tS8\t0\t14\t0\t0\t0\t0\t0\nCandle\tS9\t0\t14\t0\t0\t0\t0\t0\n";

const TAKES: &[u8] = b"==TAKE\tTICKER\t4096\n==TAKE\tSTREAM\t4096\n==TAKE\tHISTORY\t4096\n";

/// How far a script has come: so many items were fed, or all is written.
#[derive(Clone, Copy)]
pub enum Stage {
    Opening,
    Feeding(u32),
    Over,
}

/// A script that is written block by block: the opening, what is fed for each number drawn, and END.
#[derive(Drop)]
pub struct Script {
    start: u32,
    count: u32,
    stage: Stage,
    drawn: u32,
}

impl Model for Script {
    ghost use Rattle.std.specs.Prelude.{◌≡◌};
    ghost use Rattle.qd_tape.specs.Scripts.{last_drawn, Script as Seen};

    ghost Value = { Seen };

    ghost view = { λ s. record { start = s.start; count = s.count; stage = s.stage } };

    ghost invariant = { λ s. s.drawn ≡ last_drawn s.start s.stage };
}

impl Script {
    /// A script of which nothing is written.
    pub fn new(start: u32, count: u32) -> Script
        ensures { result ≡ record { start = start; count = count; stage = Opening } }
    {
        Script {
            start,
            count,
            stage: Stage::Opening,
            drawn: start,
        }
    }

    /// The lines of the next block, in place of what stood there. False where none is left.
    pub fn next_block(&mut self, scheme: &Scheme, lines: &mut Line) -> bool
        requires scheme { scheme.now ≡ builtin_defs }
        ensures lines { text_left self.old ≡ lines.new ++ text_left self.new }
        ensures some { result ≡ true → 0 < length lines.new }
        ensures fewer { result ≡ true → blocks_left self.new < blocks_left self.old }
        ensures over { result ≡ false → text_left self.old ≡ [] }
    {
        lines.clear();
        match self.stage {
            Stage::Opening => {
                add_opening(self.count, lines);
                self.stage = Stage::Feeding(0);
                self.drawn = self.start;
                true
            }
            Stage::Feeding(i) => {
                if i < self.count {
                    self.drawn = next_drawn(self.drawn);
                    add_block(scheme, self.count, i, self.drawn, lines);
                    self.stage = Stage::Feeding(i + 1);
                } else {
                    add_line(scheme, &Item::End, lines);
                    self.stage = Stage::Over;
                    self.drawn = self.start;
                }
                true
            }
            Stage::Over => false,
        }
    }
}

/// The lines of the opening.
fn add_opening(count: u32, lines: &mut Line)
    requires { lines.old ≡ [] }
    ensures lines { lines.new ≡ lines_text builtin_defs (opening_block count) }
    ensures some { 0 < length lines.new }
{
    add_start(lines);
    if count == 0 {
        add_takes(lines);
    }
}

/// The lines with which each script begins.
fn add_start(lines: &mut Line)
    requires { lines.old ≡ [] }
    ensures lines { lines.new ≡ lines_text builtin_defs first_items }
    ensures some { 0 < length lines.new }
    ensures short { length lines.new ≤ 1000 }
{
    add(OPENING, lines);
}

/// The lines that are fed for a number drawn.
fn add_block(scheme: &Scheme, count: u32, i: u32, x: u32, lines: &mut Line)
    requires scheme { scheme.now ≡ builtin_defs }
    requires lines { lines.old ≡ [] }
    requires below { i < count }
    ensures { lines.new ≡ lines_text builtin_defs (Head (fed_head i) ∷ fed_item i x ∷ (if is_taking count (i + 1) then three_takes else [])) }
{
    add_line(scheme, &Item::Head(fed_head(i)), lines);
    add_line(scheme, &fed_item(i, x), lines);
    if is_taking(count, i + 1) {
        add_takes(lines);
    }
}

/// One TAKE of each collector.
fn add_takes(lines: &mut Line)
    requires { length lines.old ≤ 4000 }
    ensures { lines.new ≡ lines.old ++ lines_text builtin_defs three_takes }
{
    add(TAKES, lines);
}

/// A text behind others.
fn add(text: &[u8], lines: &mut Line)
    requires { length lines.old + length text.now ≤ 4096 }
    ensures text { lines.new ≡ lines.old ++ text.now }
    ensures len { length lines.new ≡ length lines.old + length text.now }
{
    lines.append(text);
}
