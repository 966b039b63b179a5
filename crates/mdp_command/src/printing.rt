ghost use Rattle.std.specs.Prelude.{◌≡◌, ◌⊎◌, Ok, Err};
ghost use Rattle.mdp_cert.specs.{Plain.{plain}, Spelling.{text_of}};
ghost use Rattle.mdp_job.specs.Refusal.{no_memory};
ghost use Rattle.mdp_command.specs.Said.{said};

use mdp_cert::{Cert, write_cert};
use mdp_job::Refusal;
use std::alloc::Global;

/// The text of a certificate in version 2, for a command that prints it.
pub fn certificate_text(alloc: Global, cert: &Cert) -> Result<Vec<u8>, Refusal>
    ensures { (said result ≡ Err no_memory) ⊎ (said result ≡ Ok (text_of (plain cert.now))) }
{
    let mut text = Vec::new(alloc);
    write_cert(cert, &mut text)?;
    Ok(text)
}
