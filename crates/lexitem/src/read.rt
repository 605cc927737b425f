// Which reader reads which kind.
ghost use Rattle.std.specs.Prelude.{◌≡◌};
ghost use Rattle.lexitem.specs.Read.{bare_of, got_item};

use crate::item::LexItem;
use atom::read::{lex_anisou, lex_atom};
use crystal::read::lex_cryst;
use dbref::read::{lex_dbref, lex_dbref1, lex_dbref2};
use header::read::lex_header;
use kind::Kind;
use line::fault::{Faults, Got};
use line::options::Options;
use master::read::lex_master;
use model::read::lex_model;
use modres::read::lex_modres;
use remark::read::lex_remark;
use seqadv::read::lex_seqadv;
use seqres::read::lex_seqres;
use ssbond::read::lex_ssbond;
use transformation::read::{lex_mtrix, lex_numbered};

// What f makes of what was read, with the same faults.
#[inline(always)]
fn map<T, F: FnOnce(T) -> LexItem>(got: Got<T>, f: F) -> Got<LexItem>
    requires { F.pre f got.value }
    ensures value { F.post f got.value result.value }
    ensures faults { result.faults ≡ got.faults }
{
    Got {
        value: f(got.value),
        faults: got.faults,
    }
}

// A kind that has no fields.
#[inline(always)]
fn bare(item: LexItem) -> Got<LexItem>
    ensures { result ≡ bare_of item }
{
    Got {
        value: item,
        faults: Faults::none(),
    }
}

pub fn lex_as(kind: Kind, line: &[u8], options: Options, remarks: &[u8]) -> Got<LexItem>
    ensures { result ≡ got_item kind (record { line = line.entry.now; options = options; remarks = remarks.now }) }
{
    let exponents = options.exponents;
    match kind {
        Kind::Empty => bare(LexItem::Empty),
        Kind::Header => map(lex_header(), LexItem::Header),
        Kind::Remark => map(lex_remark(line, remarks), LexItem::Remark),
        Kind::Atom => map(lex_atom(line, false, exponents), LexItem::Atom),
        Kind::Hetatm => map(lex_atom(line, true, exponents), LexItem::Atom),
        Kind::Anisou => map(lex_anisou(line), LexItem::Anisou),
        Kind::Cryst1 => map(lex_cryst(line, exponents), LexItem::Crystal),
        Kind::Scale(row) => map(lex_numbered(line, row, exponents), LexItem::Scale),
        Kind::Origx(row) => map(lex_numbered(line, row, exponents), LexItem::OrigX),
        Kind::Mtrix(row) => map(lex_mtrix(line, row, exponents), LexItem::MtriX),
        Kind::Model => map(lex_model(line, options.mode), LexItem::Model),
        Kind::Master => map(lex_master(line), LexItem::Master),
        Kind::Dbref => map(lex_dbref(line), LexItem::Dbref),
        Kind::Dbref1 => map(lex_dbref1(line, options.mode), LexItem::Dbref1),
        Kind::Dbref2 => map(lex_dbref2(line), LexItem::Dbref2),
        Kind::Seqres => map(lex_seqres(line), LexItem::Seqres),
        Kind::Seqadv => map(lex_seqadv(line), LexItem::Seqadv),
        Kind::Modres => map(lex_modres(line), LexItem::Modres),
        Kind::Ssbond => map(lex_ssbond(line, exponents), LexItem::SSBond),
        Kind::Endmdl => bare(LexItem::EndModel),
        Kind::Ter => bare(LexItem::Ter),
        Kind::End => bare(LexItem::End),
    }
}
