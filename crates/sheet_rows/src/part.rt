// The parts of a sheet: the lists that a document is made of.
ghost use Rattle.std.specs.Prelude.{◌≡◌};
ghost use Rattle.sheet_rows.specs.Parse.{kind_of, passes};

use super::codes::kind;

// What a walk over rows collects: the rows of one kind, each the first row of an element.
#[derive(Clone, Copy, Debug, PartialEq, Eq)]
pub enum Part {
    Files,
    Documents,
    Nodes,
    Protos,
    Externs,
    Tops,
    Fields,
    Interfaces,
    Statements,
    BodyOrder,
    Instances,
    Ids,
    Routes,
    Associations,
    Urls,
}

impl Part {
    // The kind of the rows that begin its elements.
    pub fn kind(self) -> u32
        ensures { result ≡ kind_of self }
    {
        match self {
            Part::Files => kind::FILE,
            Part::Documents => kind::DOCUMENT,
            Part::Nodes => kind::NODE,
            Part::Protos => kind::PROTO,
            Part::Externs => kind::EXTERN_PROTO,
            Part::Tops => kind::TOP,
            Part::Fields => kind::FIELD,
            Part::Interfaces => kind::INTERFACE,
            Part::Statements => kind::STATEMENT,
            Part::BodyOrder => kind::ORDER,
            Part::Instances => kind::INSTANCE,
            Part::Ids => kind::ID,
            Part::Routes => kind::STATEMENT,
            Part::Associations => kind::ASSOCIATION,
            Part::Urls => kind::URL,
        }
    }

    // Whether a walk goes on past a row of this kind; else the part ends there.
    pub fn passes(self, k: u32) -> bool
        ensures { result ≡ passes self k }
    {
        let in_node = (kind::FIELD <= k) & (k <= kind::ORDER)
            | (k == kind::ID)
            | (kind::INSTANCE <= k) & (k <= kind::ASSOCIATION);
        match self {
            Part::Files => (kind::DOCUMENT <= k) & (k <= kind::ASSOCIATION),
            Part::Documents => (kind::DOCUMENT <= k) & (k <= kind::ASSOCIATION),
            Part::Nodes => in_node,
            Part::Protos => (k == kind::NODE) | in_node,
            Part::Externs => (k == kind::NODE) | (k == kind::PROTO) | (k == kind::URL) | in_node,
            Part::Tops => (kind::NODE <= k) & (k <= kind::URL)
                | (kind::INSTANCE <= k) & (k <= kind::ASSOCIATION),
            Part::Fields => k == kind::ID,
            Part::Interfaces => (k == kind::FIELD) | (k == kind::ID),
            Part::Statements => (kind::FIELD <= k) & (k <= kind::INTERFACE) | (k == kind::ID),
            Part::BodyOrder => (kind::FIELD <= k) & (k <= kind::STATEMENT) | (k == kind::ID),
            Part::Instances => (kind::FIELD <= k) & (k <= kind::ORDER) | (k == kind::ID),
            Part::Ids => false,
            Part::Routes => k == kind::ID,
            Part::Associations => (k == kind::STATEMENT) | (k == kind::ID),
            Part::Urls => (k == kind::INTERFACE) | (k == kind::ID),
        }
    }
}
