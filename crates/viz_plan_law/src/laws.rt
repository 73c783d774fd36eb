//! Laws of nodes and of what is kept of them. A law is a function that does nothing: its contract
//! holds of the definitions alone.

ghost use Rattle.viz_plan_law.specs.Cutting.{
  NodePartsAreExact,
  PartsOfKnownAreCut,
  PartsOfWidenedAreCut,
  PartsThatServeAreCut,
  ServedAreCovered,
  ServedPartsAreCut,
};
ghost use Rattle.viz_plan_law.specs.Fitting.{
  InputsKnown,
  NodesAsk,
  PlansFit,
  RequestsFit,
  ToldIsKnown,
  UpdatesFit,
};
ghost use Rattle.viz_plan_law.specs.Kept.{KeptPartsServe};
ghost use Rattle.viz_plan_law.specs.Ports.{EditsKeepPorts, HistoriesKeepPorts};
ghost use Rattle.viz_plan_law.specs.Told.{
  DatasetsAreTold,
  ToldExtentsAreOwn,
  ToldIsOfDatasets,
  ToldIsOfGiven,
  ToldMeshesAreGiven,
};

use viz_node_division::{datasets_are_divided, divided_by_ports, divisions_share_out};
use viz_node_meaning::rules_are_one;
use viz_requests::fitting_can_be_asked;

/// What is told of a node before its numbers are is the information of the dataset that it gives by
/// the exact rule, and so of the one that its data give: an image with the extent that was told, or
/// a mesh.
pub fn told_is_of_datasets()
    ensures some { DatasetsAreTold }
    ensures one { ToldIsOfDatasets }
    ensures given { ToldIsOfGiven }
    ensures extent { ToldExtentsAreOwn }
    ensures mesh { ToldMeshesAreGiven }
{
    datasets_are_divided();
    rules_are_one();
}

/// Where the request of a part that a node gives by the exact rule serves a wanted one, or what the
/// node makes for it, the part can be cut to a part that the node gives for the wanted one; from
/// scratch where it gives the first one so.
pub fn served_parts_are_cut()
    ensures covers { ServedAreCovered }
    ensures lets { ServedPartsAreCut }
    ensures cut { PartsThatServeAreCut }
    ensures widened { PartsOfWidenedAreCut }
    ensures known { PartsOfKnownAreCut }
    ensures exact { NodePartsAreExact }
{
    divisions_share_out();
    divided_by_ports();
}

/// What is found for a request at a node among entries that are true in the network is a part that
/// the node gives, of a request that serves the wanted one.
pub fn kept_parts_serve()
    ensures serve { KeptPartsServe }
{}

/// Where what is known of the extents of a node and of all upstream of it is what is told of them,
/// and only ports of their kinds are fed, the tasks of a plan fit what their nodes make, and what
/// they ask for fits what feeds these. In the networks of a history only such ports are fed, and
/// what an update is told is known so.
pub fn plans_fit()
    ensures tasks { PlansFit }
    ensures requests { RequestsFit }
    ensures update { UpdatesFit }
    ensures asked { NodesAsk }
    ensures known { InputsKnown }
    ensures told { ToldIsKnown }
    ensures edits { EditsKeepPorts }
    ensures histories { HistoriesKeepPorts }
{
    rules_are_one();
    fitting_can_be_asked();
}
