//! The first fault of the content of a block.

ghost use Rattle.std.specs.List.{AllByRecursion};
ghost use Rattle.std.specs.Prelude.{◌≡◌, ◌<◌, ◌++◌, ℕ, List, Err};
ghost use Rattle.m11_obj.specs.Reading.{content_of, record_of};
ghost use Rattle.m11_obj.specs.declared.fault.RecordFault.{RecordFault};
ghost use Rattle.m11_obj.specs.declared.fault.RecordFault.TheVariants.{BadLength};
ghost use Rattle.m11_obj_laws.specs.Faults.{Shows};

/// A block's content is refused as a record with a fault if and only if its bytes show this fault, which is that of its type or of the
/// first field that is invalid.
pub fn record_faults_are_shown()
    ensures shown { (fault : RecordFault) (bytes : List ℕ) → AllByRecursion (λ byte. byte < 256) bytes
        → content_of bytes ≡ Err fault → Shows fault bytes }
    ensures found { (fault : RecordFault) (bytes : List ℕ) → Shows fault bytes → content_of bytes ≡ Err fault }
    // if the bytes show a fault, a reader of records returns this fault
    ensures returned { (fault : RecordFault) (bytes : List ℕ) → Shows fault bytes → record_of bytes ≡ Err fault }
{}

/// Bytes after a fault don't mend it: if the beginning of a block's content has a fault other than a missing byte, the whole content has
/// the same fault.
pub fn bytes_after_a_fault_do_not_mend_it()
    ensures { (fault : RecordFault) (beginning following : List ℕ) → (fault ≡ BadLength → ⊥) → content_of beginning ≡ Err fault
        → content_of (beginning ++ following) ≡ Err fault }
{}
