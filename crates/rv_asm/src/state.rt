//! The reader's state: what is known of a text up to a place.
ghost use Rattle.std.specs.Prelude.{◌≡◌, ◌&&◌, ◌<◌, ◌≤◌, ◌+◌, ◌-◌, ◌^◌, ◌++◌, length, None, Some, OnOk, IfOk, IfErr};
ghost use Rattle.rv_asm.specs.Statement.{begins_with, takes_strings};
ghost use Rattle.rv_asm.specs.Marks.{mark_at, refused_at};
ghost use Rattle.rv_asm.specs.Faults.{earlier, least};
ghost use Rattle.rv_asm.specs.Program.{is_plain_byte};
ghost use Rattle.rv_asm.specs.Steps.{start, put, with_byte, with_line, with_block, ended, taken, step, first_of, Known};

use crate::behind_labels::BehindLabels;
use crate::class::{ByteClass, begins_with, is_all};
use crate::fault::{Cause, Fault, earlier};
use crate::item::{AsmText, Item};
use crate::items::put_statement;
use crate::listing::Listing;
use crate::mark::{Remark, behind, comment_text, remark_of};
use crate::names::Names;
use crate::pieces::{PieceKind, feeds, is_closed};
use crate::split::trimmed;
use mca_fixed::{Name, NoMemory};
use std::alloc::Global;
use std::marker::Model;
use std::mem;

/// What is known of a text up to a place.
#[derive(Drop)]
pub struct State {
    /// The line, from 1.
    line: u32,
    /// The line of the statement's first byte that is not blank, 0 where there is none yet.
    begun: u32,
    text: BehindLabels,
    /// The marks of the statement's comments.
    marks: Vec<Item>,
    names: Names,
    items: Listing,
    first: FirstFaults,
}

/// The first fault so far of each rank.
#[derive(Clone, Copy, Drop)]
struct FirstFaults {
    bad_byte: Option<Fault>,
    statement: Option<Fault>,
    remark: Option<Fault>,
    open_comment: Option<Fault>,
}

impl Model for State {
    ghost Value = { Known };

    ghost view = { λ s. record { line = s.line; begun = s.begun; text = s.text; marks = s.marks.items; names = s.names; items = s.items; bad = s.first.bad_byte; own = s.first.statement; comment = s.first.remark; unclosed = s.first.open_comment } };
}

fn is_plain_byte(b: u8) -> bool
    ensures { result ≡ is_plain_byte b }
{
    b == b'\t' || (b >= 32 && b <= 126)
}

/// The mark that a comment is, if it is one, goes behind the others.
fn push_mark(
    alloc: Global,
    line: u32,
    remark: Remark,
    text: &[u8],
    marks: &mut Vec<Item>,
) -> Result<(), NoMemory>
    ensures { OnOk result (marks.new.items ≡ marks.old.items ++ mark_at line remark text.now) }
{
    match remark {
        Remark::Begin => {
            let name = Name::from_bytes(alloc, trimmed(behind(14, text)))?;
            marks.push(Item::Begin(line, name))?;
        }
        Remark::End => {
            let name = Name::from_bytes(alloc, trimmed(behind(12, text)))?;
            marks.push(Item::End(line, name))?;
        }
        Remark::Plain => {}
        Remark::Refused => {}
    }
    Ok(())
}

/// The fault of a comment that says what is not understood.
fn refused_at(line: u32, remark: Remark) -> Option<Fault>
    ensures { result ≡ least (refused_at line remark) }
{
    match remark {
        Remark::Refused => Some(Fault {
            line,
            cause: Cause::Instrument,
        }),
        _ => None,
    }
}

impl State {
    /// Before the first byte.
    pub fn start(alloc: Global) -> Self
        ensures { result ≡ start }
    {
        State {
            line: 1,
            begun: 0,
            text: BehindLabels::empty(alloc),
            marks: Vec::new(alloc),
            names: Names::none(alloc),
            items: Listing::none(alloc),
            first: FirstFaults {
                bad_byte: None,
                statement: None,
                remark: None,
                open_comment: None,
            },
        }
    }

    /// Whether a string begins at the front of the rest.
    pub fn quotes(&self, rest: &[u8]) -> bool
        ensures { result ≡ (begins_with 34 rest.now && takes_strings self.now.text) }
    {
        begins_with(b'"', rest) && self.text.takes_strings()
    }

    /// The statement goes on with these bytes.
    fn put(&mut self, bytes: &[u8]) -> Result<(), NoMemory>
        ensures { OnOk result (self.new ≡ put self.old bytes.now) }
    {
        self.text.extend(bytes)?;
        if self.begun == 0 && !is_all(ByteClass::Blank, bytes) {
            self.begun = self.line;
        }
        Ok(())
    }

    /// A byte of a statement.
    fn with_byte(&mut self, bytes: &[u8]) -> Result<(), NoMemory>
        ensures { OnOk result (self.new ≡ with_byte self.old bytes.now) }
    {
        match bytes {
            [] => Ok(()),
            [b, ..] => {
                if !is_plain_byte(*b) {
                    let fault = Fault {
                        line: self.line,
                        cause: Cause::BadByte,
                    };
                    self.first.bad_byte = earlier(self.first.bad_byte, Some(fault));
                }
                self.put(bytes)
            }
        }
    }

    /// A comment to the end of a line.
    fn with_line(&mut self, alloc: Global, bytes: &[u8]) -> Result<(), NoMemory>
        ensures { OnOk result (self.new ≡ with_line self.old bytes.now) }
    {
        let text = comment_text(bytes);
        let remark = remark_of(text);
        push_mark(alloc, self.line, remark, text, &mut self.marks)?;
        self.first.remark = earlier(self.first.remark, refused_at(self.line, remark));
        self.put(b" ")
    }

    /// A block comment.
    fn with_block(&mut self, bytes: &[u8]) -> Result<(), NoMemory>
        requires { 2 ≤ length bytes.now }
        ensures { OnOk result (self.new ≡ with_block self.old bytes.now) }
    {
        if !is_closed(&bytes[2..]) {
            let fault = Fault {
                line: self.line,
                cause: Cause::OpenComment,
            };
            self.first.open_comment = earlier(self.first.open_comment, Some(fault));
        }
        self.put(b" ")
    }

    /// The statement ends.
    pub fn end(&mut self, alloc: Global) -> Result<(), NoMemory>
        requires { length self.old.names < 2 ^ 32 - 1 }
        ensures ok { OnOk result (self.new ≡ ended self.old) }
        ensures more { OnOk result (length self.new.names ≤ length self.old.names + 1) }
    {
        let fault = put_statement(
            alloc,
            self.begun,
            self.text.as_slice(),
            &mut self.names,
            &mut self.items,
        )?;
        self.first.statement = earlier(self.first.statement, fault);
        self.items
            .extend(mem::replace(&mut self.marks, Vec::new(alloc)))?;
        self.begun = 0;
        self.text.clear();
        Ok(())
    }

    fn taken(&mut self, alloc: Global, kind: PieceKind, bytes: &[u8]) -> Result<(), NoMemory>
        requires block { kind ≡ PieceKind.Block → 2 ≤ length bytes.now }
        requires names { length self.old.names < 2 ^ 32 - 1 }
        ensures ok { OnOk result (self.new ≡ taken self.old kind bytes.now) }
        ensures line { OnOk result (self.new.line ≡ self.old.line) }
        ensures more { OnOk result (length self.new.names ≤ length self.old.names + 1) }
    {
        match kind {
            PieceKind::Line => self.with_line(alloc, bytes),
            PieceKind::Block => self.with_block(bytes),
            PieceKind::Quoted => self.put(bytes),
            PieceKind::Feed => self.end(alloc),
            PieceKind::Semi => self.end(alloc),
            PieceKind::Return => Ok(()),
            PieceKind::Byte => self.with_byte(bytes),
        }
    }

    /// Takes the next piece.
    pub fn step(&mut self, alloc: Global, kind: PieceKind, bytes: &[u8]) -> Result<(), NoMemory>
        requires room { self.old.line + length bytes.now < 2 ^ 32 }
        requires block { kind ≡ PieceKind.Block → 2 ≤ length bytes.now }
        requires names { length self.old.names < 2 ^ 32 - 1 }
        ensures ok { OnOk result (self.new ≡ step self.old (record { kind = kind; bytes = bytes.now })) }
        ensures line { OnOk result (self.new.line ≤ self.old.line + length bytes.now) }
        ensures more { OnOk result (length self.new.names ≤ length self.old.names + 1) }
    {
        self.taken(alloc, kind, bytes)?;
        self.line += feeds(bytes);
        Ok(())
    }

    /// The first fault, where that of the lines that are too long is known.
    pub fn first_fault(&self, long: Option<Fault>) -> Option<Fault>
        ensures { result ≡ first_of long self.now }
    {
        let first = earlier(long, self.first.bad_byte);
        let first = earlier(first, self.first.statement);
        let first = earlier(first, self.first.remark);
        earlier(first, self.first.open_comment)
    }

    /// What was read.
    pub fn into_text(self, alloc: Global) -> Result<AsmText, NoMemory>
        ensures items { IfOk result (λ t. t.items ≡ self.items) }
        ensures names { IfOk result (λ t. t.names ≡ self.names) }
    {
        let State {
            line: _,
            begun: _,
            text: _,
            marks: _,
            names,
            items,
            first: _,
        } = self;
        let names = names.into_items(alloc)?;
        Ok(AsmText { items, names })
    }
}
