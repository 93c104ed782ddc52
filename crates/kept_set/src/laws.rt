// The laws of the kept set, each the contract of a function.
ghost use Rattle.kept_set.specs.Laws.{LoadsBack, AnotherCard};
ghost use Rattle.kept_set.specs.Sets.{EverySetRestoresExactly};

// Stored and loaded with the same card, every running bar is there again, and the deactivated ones are lifted.
pub fn stored_is_loaded()
    ensures { LoadsBack }
{}

// With another card nothing is restored.
pub fn another_card_restores_nothing()
    ensures { AnotherCard }
{}

// The bars are restored, each with its seconds, exactly where the records are a lawful set of this card: at most 96 lawful
// records, at most 32 of a kind, no key twice.
pub fn only_a_lawful_set_is_restored()
    ensures { EverySetRestoresExactly }
{}
