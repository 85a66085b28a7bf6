//! Laws of store files. Each of these functions does nothing: its contract is the law.

ghost use Rattle.store_file.specs.ReadingLaws.{StoreTextIsOne, StoreTextIsNotDamaged, StoreDamageIsOne};

/// A text is that of at most one store of a region.
pub fn store_text_is_one()
    ensures { StoreTextIsOne }
{}

/// A text of fewer than 2^64 bytes that is a store's is damaged nowhere.
pub fn store_text_is_not_damaged()
    ensures { StoreTextIsNotDamaged }
{}

/// What is damaged of a store is damaged at one place.
pub fn store_damage_is_one()
    ensures { StoreDamageIsOne }
{}
