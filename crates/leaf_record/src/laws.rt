//! What holds of the texts of leaves and rests, whatever they stand for.
ghost use Rattle.uo_base.specs.Reading.{OneReading};
ghost use Rattle.leaf_record.specs.Leaf.{RestFits, rest_text};
ghost use Rattle.leaf_record.specs.Laws.{OneLeaf, LeafTextIsLong};

/// Different leaves have different texts.
pub fn one_leaf()
    ensures { OneLeaf }
{}

/// A leaf text has 209 to 10,211 bytes, and so never the 64 of an inner node's text.
pub fn leaf_text_is_long()
    ensures { LeafTextIsLong }
{}

/// No rest's text is the front of another's, so a rest that was written is read again, whatever
/// follows it.
pub fn one_rest()
    ensures { OneReading RestFits rest_text }
{}
