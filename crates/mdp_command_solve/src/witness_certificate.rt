ghost use Rattle.std.specs.Prelude.{◌≡◌, ◌<◌, IsTrue, pos};
ghost use Rattle.mdp_math.specs.Rational.{◌≤ℚ◌, of_int};
ghost use Rattle.mdp_spec.specs.Mdp.{states_of};
ghost use Rattle.mdp_rows.specs.declared.dir.Dir.TheVariants.{Max, Min};
ghost use Rattle.mdp_subsystem_rules.specs.Shape.{IsFlowShape, IsFloorShape};
ghost use Rattle.mdp_cert.specs.Cert as certificate;
ghost use Rattle.mdp_cert.specs.{Cert.{are_names, Fits}, Plain.{plain}};
ghost use Rattle.mdp_witness.specs.Code as witness;
ghost use Rattle.mdp_witness.specs.{Code.{plain_flow, plain_floor}, Shown.{HasShape}};
ghost use Rattle.mdp_command_solve.specs.{Ways.{owned_name}, WitnessCertificate.{dir_of, certificate_of}};

use mdp_cert::{Body, Cert, Claim};
use mdp_num::Frac;
use mdp_rows::{Dir, Model};
use mdp_subsystem_rules::{FloorCert, FlowCert};
use mdp_text::Init;
use mdp_witness::Subsystem;

/// The certificate of a subsystem on which some policy reaches the threshold, which has a text.
fn flow_certificate_of(
    model: &Model,
    stay: Option<Vec<u8>>,
    label: Vec<u8>,
    threshold: Frac,
    start: u32,
    found: FlowCert,
) -> Cert
    requires names { IsTrue (are_names (certificate.witness Max (owned_name stay) label.items threshold)) }
    requires threshold { of_int (pos 0) ≤ℚ threshold }
    requires start { start < states_of model.now }
    requires shape { IsFlowShape model.now found.kept.items found.wide.items found.flows.items }
    ensures certificate { plain result ≡ certificate_of Max (owned_name stay) label.items threshold start model.now (plain_flow found) }
    ensures fits { Fits (plain result) }
{
    model.known();
    let cert = Cert {
        claim: Claim::Witness {
            dir: Dir::Max,
            stay,
            label,
            threshold,
        },
        states: model.states(),
        init: Init::Start(start),
        body: Body::Flow(found),
    };
    cert.known();
    cert
}

/// The certificate of a subsystem on which each policy reaches the threshold, which has a text.
fn floor_certificate_of(
    model: &Model,
    stay: Option<Vec<u8>>,
    label: Vec<u8>,
    threshold: Frac,
    start: u32,
    found: FloorCert,
) -> Cert
    requires names { IsTrue (are_names (certificate.witness Min (owned_name stay) label.items threshold)) }
    requires threshold { of_int (pos 0) ≤ℚ threshold }
    requires start { start < states_of model.now }
    requires shape { IsFloorShape model.now found.kept.items found.wide.items found.values.items found.ranks.items }
    ensures certificate { plain result ≡ certificate_of Min (owned_name stay) label.items threshold start model.now (plain_floor found) }
    ensures fits { Fits (plain result) }
{
    model.known();
    let cert = Cert {
        claim: Claim::Witness {
            dir: Dir::Min,
            stay,
            label,
            threshold,
        },
        states: model.states(),
        init: Init::Start(start),
        body: Body::Floor(found),
    };
    cert.known();
    cert
}

/// The certificate of a subsystem that was found, which has a text.
pub fn certificate_of(
    model: &Model,
    stay: Option<Vec<u8>>,
    label: Vec<u8>,
    threshold: Frac,
    start: u32,
    found: Subsystem,
) -> Cert
    requires names { IsTrue (are_names (certificate.witness (dir_of (witness.plain found)) (owned_name stay) label.items threshold)) }
    requires threshold { of_int (pos 0) ≤ℚ threshold }
    requires start { start < states_of model.now }
    requires shape { HasShape (dir_of (witness.plain found)) model.now (witness.plain found) }
    ensures certificate { plain result ≡
        certificate_of (dir_of (witness.plain found)) (owned_name stay) label.items threshold start model.now (witness.plain found) }
    ensures fits { Fits (plain result) }
{
    match found {
        Subsystem::Max(flow) => flow_certificate_of(model, stay, label, threshold, start, flow),
        Subsystem::Min(floor) => floor_certificate_of(model, stay, label, threshold, start, floor),
    }
}
