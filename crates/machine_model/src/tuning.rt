//! What the command line changes of a machine.
ghost use Rattle.std.specs.Prelude.{◌≡◌};
ghost use Rattle.machine_model.specs.Valid.{IsTuning};

/// Numbers that replace those of a machine, each where it is not 0. The type keeps their ranges.
#[derive(Clone, Copy, Debug, PartialEq, Eq)]
pub struct Tuning {
    /// The dispatch width, 0 to 64.
    pub dispatch: u32,
    /// The registers that may be written and not yet retired, 0 to 65,536.
    pub registers: u32,
    /// The entries of the load queue, 0 to 4,096.
    pub loads: u32,
    /// The entries of the store queue, 0 to 4,096.
    pub stores: u32,
    /// Whether a load may pass an older store. It counts whatever it is.
    pub no_alias: bool,
    pub ghost in_range: { IsTuning dispatch registers loads stores },
}

impl Tuning {
    /// The tuning of these numbers; 0 leaves the machine's own.
    pub fn new(dispatch: u32, registers: u32, loads: u32, stores: u32, no_alias: bool) -> Tuning
        requires { IsTuning dispatch registers loads stores }
        ensures dispatch { result.dispatch ≡ dispatch }
        ensures registers { result.registers ≡ registers }
        ensures loads { result.loads ≡ loads }
        ensures stores { result.stores ≡ stores }
        ensures no_alias { result.no_alias ≡ no_alias }
    {
        Tuning {
            dispatch,
            registers,
            loads,
            stores,
            no_alias,
        }
    }
}
