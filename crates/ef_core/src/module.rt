// Core modules.
use crate::{CoreDef, CoreLit, FName};
use ef_base::Name;

#[derive(Drop)]
pub struct CoreAttribute {
    pub name: Name,
    pub term: CoreLit,
}

#[derive(Drop)]
pub struct CoreModule {
    pub name: Name,
    pub exports: Vec<FName>,
    pub attributes: Vec<CoreAttribute>,
    pub defs: Vec<CoreDef>,
}
