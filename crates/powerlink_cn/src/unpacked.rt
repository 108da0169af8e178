//! What is packed for C can be read back.
ghost use Rattle.powerlink_cn.specs.Unpacked.{ReadBack};

/// Law of the packing: each answer can be read back from what C is given for it.
pub fn read_back()
    ensures { ReadBack }
{}
