//! What is read of a document as lists come and go.

ghost use Rattle.lx_list_laws.specs.Reading.{ListsComeAndGo};

/// Lines that are made items read the same, and so do lists that are removed, where in each item the inline children come
/// before the lists. Lines keep to that as they are made items: so a list made and removed again reads the same. This function
/// does nothing, and its contract is these laws.
pub fn lists_come_and_go()
    ensures { ListsComeAndGo }
{}
