//! Laws of faults. The functions here do nothing; their contracts are theorems.

ghost use Rattle.std.specs.Prelude.{◌≡◌, ◌++◌, [], List, None, Some};
ghost use Rattle.module_fault.specs.declared.fault.Fault.{Fault};
ghost use Rattle.module_fault.specs.Fault.{earlier, first_of};
ghost use Rattle.module_fault.specs.Laws.{IsFirst, IsNotBehind};

/// The fault that is answered is one of those found, and none of them comes before it. There is one wherever there is a
/// fault, and no other could be answered, since of two different faults one is behind the other.
pub fn first_is_answered()
    ensures first { (faults : List Fault) (fault : Fault) → first_of faults ≡ Some fault → IsFirst fault faults }
    ensures none { (faults : List Fault) → first_of faults ≡ None → faults ≡ [] }
    ensures alone { (one other : Fault) → IsNotBehind one other → IsNotBehind other one → one ≡ other }
{}

/// So faults may be found in any order, and in parts.
pub fn parts_are_joined()
    ensures { (front back : List Fault) → first_of (front ++ back) ≡ earlier (first_of front) (first_of back) }
{}
