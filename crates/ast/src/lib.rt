#![tactic(auto)]
// Ids are three numberings kept apart, as in ast.rs.
#[derive(Clone, Copy, Debug, PartialEq, Eq)]
pub struct NodeId(pub u32);

#[derive(Clone, Copy, Debug, PartialEq, Eq)]
pub struct ProtoId(pub u32);

#[derive(Clone, Copy, Debug, PartialEq, Eq)]
pub struct ExternProtoId(pub u32);
