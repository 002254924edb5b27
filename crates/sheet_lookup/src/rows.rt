// The sheet of a document.
ghost use Rattle.std.specs.Prelude.{◌≡◌};
ghost use Rattle.sheet_lookup.specs.Lookup.{sheet_of};

// The sheet that a document number selects: 0 the root, any other the library.
pub fn select<'a>(root: &'a [u32], library: &'a [u32], doc: u32) -> &'a [u32]
    ensures { result.now ≡ sheet_of root.now library.now doc }
{
    if doc == 0 { root } else { library }
}
