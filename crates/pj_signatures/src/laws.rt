//! Laws of signatures.
ghost use Rattle.std.specs.Prelude.{◌≡◌, [], true, ℕ, List};
ghost use Rattle.pj_names.specs.JavaType.{JavaType};
ghost use Rattle.pj_signatures.specs.Reading.{descriptor_of, method_descriptor_of, field_signature_of, class_signature_of, method_signature_of};
ghost use Rattle.pj_signatures.specs.Signature.{TypeSignature, ClassSignature, MethodSignature, spelled, spelled_class, spelled_method, fits, class_signature_fits, method_signature_fits};
ghost use Rattle.pj_signatures.specs.Spelled.{most_open, IsSpelled, SpellsField, SpellsMethodDescriptor, SpellsType, SpellsClass, SpellsMethod};

/// A text spells at most one signature of each kind (JVMS 4.7.9.1) within the bounds.
pub fn spelled_once()
    ensures types { (first second : TypeSignature) → fits most_open first ≡ true → fits most_open second ≡ true → spelled first [] ≡ spelled second [] → first ≡ second }
    ensures classes { (first second : ClassSignature) → class_signature_fits most_open first ≡ true → class_signature_fits most_open second ≡ true → spelled_class first ≡ spelled_class second → first ≡ second }
    ensures methods { (first second : MethodSignature) → method_signature_fits most_open first ≡ true → method_signature_fits most_open second ≡ true → spelled_method first ≡ spelled_method second → first ≡ second }
{}

/// What definitions cite as the reading of a text is its grammar, for each of the five kinds of text, in both directions:
/// what is read is the one value that the text spells (JVMS 4.3, 4.7.9.1), and where nothing is read it spells none.
pub fn readings_are_spelled()
    ensures descriptors { (text : List ℕ) → IsSpelled (SpellsField text) (descriptor_of text) }
    ensures method_descriptors { (text : List ℕ) → IsSpelled (SpellsMethodDescriptor text) (method_descriptor_of text) }
    ensures types { (declared : List (List ℕ × JavaType)) (text : List ℕ) → IsSpelled (SpellsType declared text) (field_signature_of declared text) }
    ensures classes { (text : List ℕ) → IsSpelled (SpellsClass text) (class_signature_of text) }
    ensures methods { (around : List (List ℕ × JavaType)) (text : List ℕ) → IsSpelled (SpellsMethod around text) (method_signature_of around text) }
{}
