// A lexed line: one record over all kinds, its kind and its rows.
ghost use Rattle.std.specs.Prelude.{◌≡◌};
ghost use Rattle.lexitem.specs.Describe.{fields_of, kind_of_item};
ghost use Rattle.row.specs.Rows.{rows_of};

use atom::record::{Anisou, Atom};
use atom::rows::{anisou_rows, atom_rows};
use crystal::record::Crystal;
use crystal::rows::crystal_rows;
use dbref::record::{Dbref, Dbref1, Dbref2};
use dbref::rows::{dbref_rows, dbref1_rows, dbref2_rows};
use header::record::Header;
use header::rows::header_rows;
use kind::Kind;
use master::record::Master;
use master::rows::master_rows;
use model::record::Model;
use model::rows::model_rows;
use modres::record::Modres;
use modres::rows::modres_rows;
use remark::record::Remark;
use remark::rows::remark_rows;
use row::Rows;
use seqadv::record::Seqadv;
use seqadv::rows::seqadv_rows;
use seqres::record::Seqres;
use seqres::rows::seqres_rows;
use ssbond::record::SSBond;
use ssbond::rows::ssbond_rows;
use transformation::record::{MtriX, NumberedRow};
use transformation::rows::{mtrix_rows, numbered_rows};

#[derive(Clone, Copy)]
pub enum LexItem {
    Empty,
    Header(Header),
    Remark(Remark),
    Atom(Atom),
    Anisou(Anisou),
    Crystal(Crystal),
    Scale(NumberedRow),
    OrigX(NumberedRow),
    MtriX(MtriX),
    Model(Model),
    Master(Master),
    Seqres(Seqres),
    Dbref(Dbref),
    Dbref1(Dbref1),
    Dbref2(Dbref2),
    Seqadv(Seqadv),
    Modres(Modres),
    SSBond(SSBond),
    EndModel,
    Ter,
    End,
}

impl LexItem {
    pub fn kind(self) -> Kind
        ensures { result ≡ kind_of_item self }
    {
        let item = self;
        match item {
            LexItem::Empty => Kind::Empty,
            LexItem::Header(_) => Kind::Header,
            LexItem::Remark(_) => Kind::Remark,
            LexItem::Atom(atom) => {
                if atom.hetero {
                    return Kind::Hetatm;
                }
                Kind::Atom
            }
            LexItem::Anisou(_) => Kind::Anisou,
            LexItem::Crystal(_) => Kind::Cryst1,
            LexItem::Scale(scale) => Kind::Scale(scale.row),
            LexItem::OrigX(origx) => Kind::Origx(origx.row),
            LexItem::MtriX(mtrix) => Kind::Mtrix(mtrix.row),
            LexItem::Model(_) => Kind::Model,
            LexItem::Master(_) => Kind::Master,
            LexItem::Seqres(_) => Kind::Seqres,
            LexItem::Dbref(_) => Kind::Dbref,
            LexItem::Dbref1(_) => Kind::Dbref1,
            LexItem::Dbref2(_) => Kind::Dbref2,
            LexItem::Seqadv(_) => Kind::Seqadv,
            LexItem::Modres(_) => Kind::Modres,
            LexItem::SSBond(_) => Kind::Ssbond,
            LexItem::EndModel => Kind::Endmdl,
            LexItem::Ter => Kind::Ter,
            LexItem::End => Kind::End,
        }
    }
}

pub fn rows_of(item: LexItem) -> Rows
    ensures { result ≡ rows_of (fields_of item) }
{
    match item {
        LexItem::Empty => Rows::NONE,
        LexItem::Header(header) => header_rows(header),
        LexItem::Remark(remark) => remark_rows(remark),
        LexItem::Atom(atom) => atom_rows(atom),
        LexItem::Anisou(anisou) => anisou_rows(anisou),
        LexItem::Crystal(crystal) => crystal_rows(crystal),
        LexItem::Scale(scale) => numbered_rows(scale),
        LexItem::OrigX(origx) => numbered_rows(origx),
        LexItem::MtriX(mtrix) => mtrix_rows(mtrix),
        LexItem::Model(model) => model_rows(model),
        LexItem::Master(master) => master_rows(master),
        LexItem::Seqres(seqres) => seqres_rows(seqres),
        LexItem::Dbref(dbref) => dbref_rows(dbref),
        LexItem::Dbref1(dbref1) => dbref1_rows(dbref1),
        LexItem::Dbref2(dbref2) => dbref2_rows(dbref2),
        LexItem::Seqadv(seqadv) => seqadv_rows(seqadv),
        LexItem::Modres(modres) => modres_rows(modres),
        LexItem::SSBond(ssbond) => ssbond_rows(ssbond),
        LexItem::EndModel => Rows::NONE,
        LexItem::Ter => Rows::NONE,
        LexItem::End => Rows::NONE,
    }
}
