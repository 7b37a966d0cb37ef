use capacity::strengths::{factored_modulus, factored_strength, redundancy};
use capacity::told::{Capacity, tell};
use design_code::appraisal as code;
use design_code::verdict::Verdict;
use quantities::bundle::Bundle;
use quantities::forces::Forces;
use quantities::grade::Strength;
use quantities::readings::Readings;
use shop_code::bending::BendingCode;
use shop_code::compression::CompressionCode;
use shop_code::shear::ShearCode;
use shop_code::shop::shop_verdict;
use shop_code::tension::TensionCode;
use std::fmt;

// Tenths, printed as a decimal fraction.
#[derive(Clone, Copy)]
struct Tenths(u32);

impl fmt::Display for Tenths {
    fn fmt<W: fmt::Write>(&self, f: &mut fmt::Formatter<W>) -> fmt::Result {
        write!(f, "{}.{}", self.0 / 10, self.0 % 10)
    }
}

// Prints what a bundle is, its allowable strengths, its capacities and the verdict on it under forces.
pub fn appraise(rt: &impl Print, bundle: &Bundle, forces: Forces) -> anyhow::Result<()> {
    print_basis(rt, bundle)?;
    print_culms(rt, bundle.culms())?;
    print_strengths(rt, bundle)?;
    print_capacities(rt, bundle)?;
    print_forces(rt, forces)?;
    print_clauses(rt, bundle, forces)?;
    print_verdict(rt, shop_verdict(bundle, forces))
}

fn print_basis(rt: &impl Print, bundle: &Bundle) -> anyhow::Result<()> {
    let basis = bundle.basis;
    let length = basis.length.value;
    let duration = basis.duration;
    let strength = basis.class.strength.during(duration).value;
    let modulus = basis.class.modulus.during(duration).value;
    println!(rt; "effective length {length} mm, {duration} load")?;
    println!(rt; "factors of the class: {strength} % on strength, {modulus} % on the modulus")?;
    Ok(())
}

fn print_culms(rt: &impl Print, culms: &[Readings]) -> anyhow::Result<()> {
    println!(rt; "culms (diameter, wall, straightness):")?;
    for culm in culms {
        let diameter = Tenths(culm.diameter.value);
        let wall = Tenths(culm.wall.value);
        let straightness = culm.straightness.value;
        println!(rt; "  {diameter} mm, {wall} mm, {straightness} %")?;
    }
    Ok(())
}

fn print_strengths(rt: &impl Print, bundle: &Bundle) -> anyhow::Result<()> {
    let grade = bundle.basis.grade;
    let percent = redundancy(bundle.culms().len());
    let modulus = Tenths(factored_modulus(&bundle.basis).value);
    println!(rt; "redundancy factor {percent} %")?;
    println!(rt; "allowable strengths and modulus:")?;
    print_strength(rt, bundle, "bending f_m", grade.bending, 50)?;
    print_strength(rt, bundle, "compression f_c", grade.compression, 50)?;
    print_strength(rt, bundle, "tension f_t", grade.tension, 50)?;
    print_strength(rt, bundle, "shear f_v", grade.shear, 25)?;
    println!(rt; "  modulus E {modulus} MPa")?;
    Ok(())
}

// An allowable strength: the factored one has `ten_millionths` of a megapascal to the unit.
fn print_strength(
    rt: &impl Print,
    bundle: &Bundle,
    name: &str,
    characteristic: Strength,
    ten_millionths: u8,
) -> anyhow::Result<()> {
    let units = u64::from(factored_strength(bundle, characteristic).value)
        * u64::from(ten_millionths);
    let whole = units / 10000000;
    let fraction = units % 10000000;
    println!(rt; "  {name} {whole}.{fraction:07} MPa")?;
    Ok(())
}

fn print_capacities(rt: &impl Print, bundle: &Bundle) -> anyhow::Result<()> {
    println!(rt; "capacities, each between two whole numbers:")?;
    let capacities = [
        (Capacity::Moment, "moment M_r", "N m"),
        (Capacity::Shear, "shear V_r", "N"),
        (Capacity::Tension, "tension N_t", "N"),
        (Capacity::Crushing, "crushing P_c", "N"),
        (Capacity::Buckling, "buckling P_e", "N"),
    ];
    for (capacity, name, unit) in capacities {
        let pair = tell(capacity, bundle);
        println!(rt; "  {name} {} to {} {unit}", pair.lower, pair.upper)?;
    }
    Ok(())
}

fn print_forces(rt: &impl Print, forces: Forces) -> anyhow::Result<()> {
    let axial = forces.axial.newtons;
    let shear = forces.shear.value;
    let moment = forces.moment.value;
    println!(rt; "forces: N {axial} N, V {shear} N, M {moment} N m")?;
    Ok(())
}

fn print_clauses(rt: &impl Print, bundle: &Bundle, forces: Forces) -> anyhow::Result<()> {
    println!(rt; "clauses:")?;
    let clauses = [
        ("1 bending", code::appraise(&BendingCode, bundle, forces)),
        ("2 shear", code::appraise(&ShearCode, bundle, forces)),
        ("3 tension", code::appraise(&TensionCode, bundle, forces)),
        (
            "4 compression",
            code::appraise(&CompressionCode, bundle, forces),
        ),
    ];
    for (name, verdict) in clauses {
        let word = if verdict.is_ok() {
            "met"
        } else {
            "not accepted"
        };
        println!(rt; "  {name}: {word}")?;
    }
    Ok(())
}

fn print_verdict(rt: &impl Print, verdict: Verdict) -> anyhow::Result<()> {
    match verdict {
        Ok(()) => println!(rt; "verdict: met")?,
        Err(refused) => println!(rt; "verdict: refused, clause {} decides", refused.clause)?,
    }
    Ok(())
}
