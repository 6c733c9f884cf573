// A file whose links lead up.
ghost use Rattle.rules.specs.Links.{AllLeadUp};

use records::Opened;

// Its records can be gone through in order of their numbers, and every link is to one that is still to come.
#[derive(Clone, Copy)]
pub struct Linked<'a> {
    pub over: Opened<'a>,
    ghost up: { AllLeadUp over.file.now over.n },
}
