// The laws of the reader, each as the contract of a function that does nothing.
ghost use Rattle.dl_nas.specs.Laws.{WalkFindsFirst, WalkRefusesFirstFault};

// The walk accepts exactly the sequences of whole elements, and finds the first of each.
pub fn walk_finds_first_holds()
    ensures { WalkFindsFirst }
{}

// Behind whole elements the first octet at fault decides.
pub fn walk_refuses_first_fault_holds()
    ensures { WalkRefusesFirstFault }
{}
