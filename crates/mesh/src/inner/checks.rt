// The checks of the mesh by what is lent, for callers that have made check 1. Methods, as those of `Faces` and
// `Mesh` in lent.rt.
ghost use Rattle.std.specs.Prelude.{◌≡◌, ◌*◌, length};
ghost use Rattle.degree.specs.Degree.{lowest_crowded};
ghost use Rattle.mesh.specs.Bundles.{mesh_of};
ghost use Rattle.mesh.specs.Answers.{at};
ghost use Rattle.mesh.specs.Distances.{lowest_wrong_distances, lowest_wrong_between};
ghost use Rattle.mesh.specs.Facts.{Small, GridSized, FacesIn, Placed, PeersIn};
ghost use Rattle.refusal.specs.declared.Reason.TheVariants.{WrongDistance};
ghost use Rattle.mesh.specs.Mesh.{Sized, sides, with_equations, links, topology, grid_sides, grid_with_equations, grid_links, whole_mesh};

use crate::inner::distances::{Linked, Sided};
use crate::{Answer, Faces, Grid, Mesh, at};
use chain::Form;
use degree::Chains;
use refusal::Reason;

impl<'a> Faces<'a> {
    // Check 14, of the faces that name a cell, where 1 and 4 have passed: the lowest cell that meets it.
    fn lowest_crowded(&self) -> Option<usize>
        requires small { Small self.now.counts }
        requires faces { FacesIn self.now.counts.cells self.now.adjacency.now }
        ensures { result ≡ lowest_crowded self.now.counts.cells self.now.adjacency.now }
    {
        degree::inner::lowest_crowded(self.counts.cells, self.adjacency)
    }

    // The checks 4 and 14.
    #[tactic(auto, using(crate::proofs::Facts::in_order), unfolding(crate::specs::Answers::first_of, crate::specs::Mesh::sides))]
    pub fn check_sides(&self) -> Answer
        requires { Small self.now.counts }
        ensures { result ≡ sides self.now.counts.cells self.now.adjacency.now }
    {
        at(Reason::BadFace, self.lowest_bad_face())?;
        at(Reason::CrowdedCell, self.lowest_crowded())
    }

    // The checks 4, 5 and 14 with the equations of a stencil.
    #[tactic(auto, using(crate::proofs::Facts::in_order), unfolding(crate::specs::Answers::first_of, crate::specs::Mesh::with_equations))]
    pub fn check_with_equations(&self, equations: &[usize], starts: &[usize]) -> Answer
        requires { Small self.now.counts }
        ensures { result ≡ with_equations self.now.counts.cells self.now.adjacency.now equations.now starts.now }
    {
        at(Reason::BadFace, self.lowest_bad_face())?;
        let limit = self.counts.cells + 2;
        let cell = chain::lowest_broken(limit, equations, Form::Single, starts);
        at(Reason::BrokenChain, cell)?;
        at(Reason::CrowdedCell, self.lowest_crowded())
    }

    // The checks 4, 14 and 6 with condition codes and links.
    #[tactic(auto, using(crate::proofs::Facts::in_order), unfolding(crate::specs::Answers::first_of, crate::specs::Mesh::links))]
    pub fn check_links(&self, codes: &[usize]) -> Answer
        requires { Small self.now.counts }
        ensures { result ≡ links self.now.counts.cells self.now.adjacency.now codes.now }
    {
        at(Reason::BadFace, self.lowest_four(codes))?;
        at(Reason::CrowdedCell, self.lowest_crowded())?;
        at(Reason::BadLink, self.lowest_bad_link(codes))
    }
}

impl<'a> Grid<'a> {
    // Check 20 without links, where 2 and 4 have passed.
    fn check_between(&self) -> Answer
        requires long { length self.now.geometry.now ≡ 11 * self.now.counts.faces }
        requires placed { let m = self.now in
            Placed m.counts m.adjacency.now m.places.now }
        ensures { let m = self.now in
            result ≡ at WrongDistance (lowest_wrong_between m.adjacency.now m.geometry.now m.places.now) }
    {
        let sided = Sided {
            faces: self.faces(),
            places: self.places,
        };
        at(Reason::WrongDistance, sided.lowest_wrong(self.geometry))
    }

    // Check 20 with links, where 2, 4 and 6 have passed.
    fn check_distances(&self, codes: &[usize]) -> Answer
        requires long { length self.now.geometry.now ≡ 11 * self.now.counts.faces }
        requires placed { let m = self.now in
            Placed m.counts m.adjacency.now m.places.now }
        requires peers { PeersIn codes.now self.now.counts.faces }
        ensures { let m = self.now in
            result ≡ at WrongDistance (lowest_wrong_distances m.adjacency.now m.geometry.now m.places.now codes.now) }
    {
        let sided = Sided {
            faces: self.faces(),
            places: self.places,
        };
        let linked = Linked { sided, codes };
        at(Reason::WrongDistance, linked.lowest_wrong(self.geometry))
    }

    // The checks 4, 14 and 20.
    #[tactic(auto, using(crate::proofs::Facts::in_order), unfolding(crate::specs::Answers::first_of, crate::specs::Mesh::grid_sides))]
    pub fn check_sides(&self) -> Answer
        requires small { Small self.now.counts }
        requires sized { let m = self.now in
            GridSized m.counts m.adjacency.now m.geometry.now m.places.now }
        ensures { let m = self.now in
            result ≡ grid_sides m.counts.cells m.adjacency.now m.geometry.now m.places.now }
    {
        self.faces().check_sides()?;
        self.check_between()
    }

    // The checks 4, 5, 14 and 20 with the equations of a stencil.
    #[tactic(auto, using(crate::proofs::Facts::in_order), unfolding(crate::specs::Answers::first_of, crate::specs::Mesh::grid_with_equations))]
    pub fn check_with_equations(&self, equations: &[usize], starts: &[usize]) -> Answer
        requires small { Small self.now.counts }
        requires sized { let m = self.now in
            GridSized m.counts m.adjacency.now m.geometry.now m.places.now }
        ensures { let m = self.now in
            result ≡ grid_with_equations m.counts.cells m.adjacency.now m.geometry.now m.places.now equations.now starts.now }
    {
        self.faces().check_with_equations(equations, starts)?;
        self.check_between()
    }

    // The checks 4, 14, 6 and 20 with condition codes and links.
    #[tactic(auto, using(crate::proofs::Facts::in_order), unfolding(crate::specs::Answers::first_of, crate::specs::Mesh::grid_links))]
    pub fn check_links(&self, codes: &[usize]) -> Answer
        requires small { Small self.now.counts }
        requires sized { let m = self.now in
            GridSized m.counts m.adjacency.now m.geometry.now m.places.now }
        requires codes { length codes.now ≡ 2 * self.now.counts.faces }
        ensures { let m = self.now in
            result ≡ grid_links m.counts.cells m.adjacency.now m.geometry.now m.places.now codes.now }
    {
        self.faces().check_links(codes)?;
        self.check_distances(codes)
    }
}

impl<'a> Mesh<'a> {
    // The checks 4, 5, 14, 6 and 20 with condition codes and links.
    #[tactic(auto, using(crate::proofs::Facts::in_order), unfolding(crate::specs::Answers::first_of, crate::specs::Mesh::whole_mesh))]
    pub fn check_whole(&self, codes: &[usize]) -> Answer
        requires small { Small self.now.counts }
        requires sized { Sized (mesh_of self.now) }
        requires codes { length codes.now ≡ 2 * self.now.counts.faces }
        ensures { result ≡ whole_mesh (mesh_of self.now) codes.now }
    {
        self.check_topology(codes)?;
        self.grid().check_distances(codes)
    }

    // The checks 4, 5, 14 and 6 with condition codes and links.
    #[tactic(auto, using(crate::proofs::Facts::in_order), unfolding(crate::specs::Answers::first_of, crate::specs::Mesh::topology))]
    pub fn check_topology(&self, codes: &[usize]) -> Answer
        requires { Small self.now.counts }
        ensures { result ≡ topology (mesh_of self.now) codes.now }
    {
        let faces = self.grid().faces();
        at(Reason::BadFace, faces.lowest_four(codes))?;
        let chains = Chains {
            heads: self.heads,
            facing: self.facing,
        };
        let found = chains.search(self.counts.faces);
        let broken = chain::lower_of(
            found.broken,
            chain::lowest_broken(self.counts.cells, self.bordering, Form::Second, self.heads),
        );
        at(Reason::BrokenChain, broken)?;
        let crowded = chain::lower_of(found.long, faces.lowest_crowded());
        at(Reason::CrowdedCell, crowded)?;
        at(Reason::BadLink, faces.lowest_bad_link(codes))
    }
}
