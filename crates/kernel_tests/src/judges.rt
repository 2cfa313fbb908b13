//! The calls over any judge, at one that never has memory.
use base_core::{NoMem, Stop};
use cic_rules::{
    Answer, Context, Fuel, GlobalEnv, Inferred, Judge, Mode, check, converts, row_of, sort_of,
};
use core_term::{Sort, Term};
use std::alloc::Global;
use std::test::Fail;

struct Silent;

impl Judge for Silent {
    fn whnf(
        &self,
        _alloc: Global,
        _env: &GlobalEnv,
        _ctx: &Context,
        _t: &Term,
        _fuel: &mut Fuel,
    ) -> Result<Term, Stop> {
        Err(Stop::NoMem)
    }

    fn conv(
        &self,
        _alloc: Global,
        _env: &GlobalEnv,
        _ctx: &Context,
        _t: &Term,
        _u: &Term,
        _mode: Mode,
        _fuel: &mut Fuel,
    ) -> Result<Answer, NoMem> {
        Err(NoMem)
    }

    fn infer(
        &self,
        _alloc: Global,
        _env: &GlobalEnv,
        _ctx: &Context,
        _t: &Term,
        _fuel: &mut Fuel,
    ) -> Result<Inferred, Stop> {
        Err(Stop::NoMem)
    }
}

#[test]
fn silence(rt: HostRuntime) -> Result<(), Fail> {
    let alloc = rt.alloc();
    let env = GlobalEnv::empty();
    let ctx = Context::empty();
    let mut fuel = Fuel::new(9);
    let t = Term::sort(alloc, Sort::SetSort)?;
    assert!(rt; sort_of(&Silent, alloc, &env, &ctx, &t, &mut fuel).is_err());
    assert!(rt; row_of(&Silent, alloc, &env, &ctx, &t, &mut fuel).is_err());
    assert!(rt; check(&Silent, alloc, &env, &ctx, &t, &t, &mut fuel).is_err());
    let fits = converts(&Silent, alloc, &env, &ctx, &t, &t, Mode::Same, &mut fuel);
    assert!(rt; fits.is_err());
    Ok(())
}
