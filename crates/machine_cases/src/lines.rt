// The words with which lines begin.

use crate::acts::ActLine;
use crate::docs::DocLine;
use crate::lookups::LookupLine;
use crate::made::MadeLine;
use crate::operators::OperatorLine;
use crate::statements::TreeLine;
use crate::tables::TableLine;

/// What a line is.
#[derive(Clone, Copy)]
pub enum Line {
    New,
    Table(TableLine),
    Doc(DocLine),
    Made(MadeLine),
    Lookup(LookupLine),
    Act(ActLine),
    Operator(OperatorLine),
    Tree(TreeLine),
}

/// Any number of words.
const ANY: usize = 0;

// Each name, and how many words a line has with it.
static LINES: [(&str, usize, Line); 65] = [
    ("new", 1, Line::New),
    ("prop", 3, Line::Table(TableLine::Prop)),
    ("kept", 2, Line::Table(TableLine::Kept)),
    ("flat", 2, Line::Table(TableLine::Flat)),
    ("global", 4, Line::Table(TableLine::Global)),
    ("field", 3, Line::Table(TableLine::Field)),
    ("method", 3, Line::Table(TableLine::Method)),
    ("class", 4, Line::Table(TableLine::Class)),
    ("chunk", 2, Line::Table(TableLine::Chunk)),
    ("place", 5, Line::Table(TableLine::Place)),
    ("value", 3, Line::Doc(DocLine::Value)),
    ("param", 3, Line::Doc(DocLine::Param)),
    ("result", 3, Line::Doc(DocLine::Given)),
    ("constant", 1, Line::Doc(DocLine::Constant)),
    ("doc", 1, Line::Doc(DocLine::Doc)),
    ("object", 3, Line::Made(MadeLine::Object)),
    ("array", ANY, Line::Made(MadeLine::Array)),
    ("function", 4, Line::Made(MadeLine::Function)),
    ("frame", 4, Line::Made(MadeLine::Frame)),
    ("slot", 5, Line::Made(MadeLine::Slot)),
    ("unslot", 3, Line::Made(MadeLine::Unslot)),
    ("element", 3, Line::Made(MadeLine::Element)),
    ("construct", 2, Line::Made(MadeLine::Construct)),
    ("set", 4, Line::Made(MadeLine::Set)),
    ("class_of", 2, Line::Lookup(LookupLine::ClassOf)),
    ("constructed", 2, Line::Lookup(LookupLine::Constructed)),
    ("element_count", 2, Line::Lookup(LookupLine::ElementCount)),
    ("frame_up", 2, Line::Lookup(LookupLine::FrameUp)),
    ("function_of", 2, Line::Lookup(LookupLine::FunctionOf)),
    ("has", 3, Line::Lookup(LookupLine::Has)),
    ("instance", 3, Line::Lookup(LookupLine::Instance)),
    ("own_slot", 3, Line::Lookup(LookupLine::OwnSlot)),
    ("proto_of", 2, Line::Lookup(LookupLine::ProtoOf)),
    ("read_own", 3, Line::Lookup(LookupLine::ReadOwn)),
    ("read_slot", 3, Line::Lookup(LookupLine::ReadSlot)),
    ("read_var", 3, Line::Lookup(LookupLine::ReadVar)),
    ("slot_at", 3, Line::Lookup(LookupLine::SlotAt)),
    ("slot_count", 2, Line::Lookup(LookupLine::SlotCount)),
    ("type_name", 2, Line::Lookup(LookupLine::TypeName)),
    ("wanted", 2, Line::Lookup(LookupLine::Wanted)),
    ("callee", 2, Line::Act(ActLine::Callee)),
    ("cast", 3, Line::Act(ActLine::Cast)),
    ("enter", ANY, Line::Act(ActLine::Enter)),
    ("host", 5, Line::Act(ActLine::Host)),
    ("inner", 2, Line::Act(ActLine::Inner)),
    ("keep", 3, Line::Act(ActLine::Keep)),
    ("leave", 4, Line::Act(ActLine::Leave)),
    ("operate", ANY, Line::Act(ActLine::Operate)),
    ("probe", 4, Line::Act(ActLine::Probe)),
    ("read", 4, Line::Act(ActLine::Read)),
    ("remove", 4, Line::Act(ActLine::Remove)),
    ("reply", 2, Line::Act(ActLine::Reply)),
    ("take", 4, Line::Act(ActLine::Take)),
    ("this", 2, Line::Act(ActLine::This)),
    ("walk", 2, Line::Act(ActLine::Walk)),
    ("write", 6, Line::Act(ActLine::Write)),
    ("binary", 4, Line::Operator(OperatorLine::Binary)),
    ("is_same", 3, Line::Operator(OperatorLine::Same)),
    ("is_truthy", 2, Line::Operator(OperatorLine::Truthy)),
    ("unary", 3, Line::Operator(OperatorLine::Unary)),
    ("declare", ANY, Line::Tree(TreeLine::Declare)),
    ("scope", 3, Line::Tree(TreeLine::Scope)),
    ("fold", ANY, Line::Tree(TreeLine::Fold)),
    ("copy_scope", 2, Line::Tree(TreeLine::CopyScope)),
    ("copy_program", 1, Line::Tree(TreeLine::CopyProgram)),
];

/// The line that begins with this name and has so many words.
fn line_named(word: &str, count: usize) -> Option<Line> {
    for (name, words, line) in &LINES {
        if *name == word && (*words == ANY || *words == count) {
            return Some(*line);
        }
    }
    None
}

/// The line that these words are.
pub fn line_of(words: &[&str]) -> Option<Line> {
    match words.first() {
        Some(name) => line_named(name, words.len()),
        None => None,
    }
}
