ghost use Rattle.std.specs.Prelude.{◌≡◌, ◌⊎◌, false, Err, IfOk};
ghost use Rattle.mdp_spec.specs.Row.{IsMdp};
ghost use Rattle.mdp_job.specs.Refusal.{read_model, read_certificate};
ghost use Rattle.mdp_command.specs.{Files.{model_due, second_due}, Read.{IsRead, IsModelReadToEnd, IsSecondReadToEnd, is_of_model}};
ghost use Rattle.mdp_command.specs.{Said.{said, plain_error}, Streams.{input}};

use mdp_drn::{FromError, read_from};
use mdp_edge::{InError, Source, read_all};
use mdp_job::Refusal;
use mdp_rows::{Model, RowRule};
use std::alloc::Global;

/// The most bytes that a source may give, 2^30.
const MOST_BYTES: usize = 1 << 30;

/// The model that a source's bytes read as. The source is read in pieces and to its end, also where the text is refused.
pub fn read_model<S: Source>(alloc: Global, source: &mut S, rule: RowRule) -> Result<Model, Refusal>
    ensures read { IsRead (input S.left S.faults source.old source.new) (model_due rule) read_model (plain_error result) }
    ensures end { IsModelReadToEnd (input S.left S.faults source.old source.new) (plain_error result) }
    ensures mdp { IfOk result IsMdp }
{
    match read_from(alloc, source, rule, MOST_BYTES) {
        Ok(model) => {
            model.known();
            Ok(model)
        }
        Err(FromError::ReadFault) => Err(Refusal::ReadModel),
        Err(FromError::Long) => Err(Refusal::LongModel),
        Err(FromError::At { line, kind }) => Err(Refusal::Model { line, kind }),
        Err(FromError::Memory) => Err(Refusal::Memory),
    }
}

/// The bytes of the second source, which is read to its end: the text of a certificate, or whatever else a command reads there. Its faults and its
/// length are those of a certificate.
pub fn read_second<S: Source>(alloc: Global, source: &mut S) -> Result<Vec<u8>, Refusal>
    ensures read { IsRead (input S.left S.faults source.old source.new) second_due read_certificate (said result) }
    ensures end { IsSecondReadToEnd (input S.left S.faults source.old source.new) (said result) }
    ensures not_of_model { is_of_model (said result) ≡ false }
{
    match read_all(alloc, source, MOST_BYTES) {
        Ok(bytes) => Ok(bytes),
        Err(InError::ReadFault) => Err(Refusal::ReadCertificate),
        Err(InError::Long) => Err(Refusal::LongCertificate),
        Err(InError::Memory) => Err(Refusal::Memory),
    }
}
